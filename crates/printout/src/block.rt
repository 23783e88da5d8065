// The block of an event on a page.

ghost use Rattle.std.specs.Prelude.{◌≡◌, List, ℕ, ◌≤◌, ◌<◌};
ghost use Rattle.relation.specs.Rel.{single, union};
ghost use Rattle.relation.specs.Bits.{bit};
ghost use Rattle.layout.specs.Layout.{events};
ghost use Rattle.layout.specs.Decode.{decode};
ghost use Rattle.recording.specs.Causes.{refusal};
ghost use Rattle.printout.specs.Page.{letter, place, star, block};
ghost use Rattle.printout.specs.Table.{Members};

use layout::field;
use relation::row;
use relation::row::Row;

// The columns of a block.
pub const WIDTH: usize = 20;

// The row with e, where it has a bit for e.
fn with(row: Row, e: usize) -> Row
    ensures { (j : ℕ) → j < 64 → bit result j ≡ union (bit row) (single e) j }
{
    if e < 64 {
        return row::with(row, e);
    }
    row
}

// The members of a ring, those that a row has a bit for.
pub fn members(ring: &[u8]) -> Row
    ensures { Members ring.now result }
{
    let mut r = row::none();
    for e in ring {
        let more = with(r, usize::from(*e));
        r = more;
    }
    r
}

// The letter of a class.
fn letter(class: usize) -> u8
    ensures { result ≡ letter class }
{
    match class {
        1 => b'R',
        2 => b'W',
        3 => b'F',
        _ => b' ',
    }
}

// The star of an event of the ring, and a space for another.
fn star(stars: Row, e: usize) -> u8
    requires { e < 64 }
    ensures { (ring : List ℕ) → Members ring stars → result ≡ star ring e }
{
    if row::has(stars, e) {
        return b'*';
    }
    b' '
}

// The location of an event, a space and its value; spaces for a fence.
fn place(file: &[u8], e: usize) -> [u8; 7]
    requires { (refusal file.now ≡ 0) × (1 ≤ e) × (e ≤ events file.now) }
    ensures { result ≡ place (decode file.now) e }
{
    let mut place = [b' '; 7];
    if field::class_of(file, e) == 3 {
        return place;
    }
    let value = decimal::aligned(field::value_of(file, e));
    place[0] = b'0' + field::location_of(file, e) as u8;
    place[2..].copy_from_slice(&value);
    place
}

// The block of event e, with a star where it is one of the ring.
pub fn block(file: &[u8], stars: Row, e: usize) -> [u8; WIDTH]
    requires { (refusal file.now ≡ 0) × (1 ≤ e) × (e ≤ events file.now) }
    ensures { (ring : List ℕ) → Members ring stars → result ≡ block (decode file.now) ring e }
{
    let number = decimal::aligned(e);
    let place = place(file, e);
    let mut block = [b' '; WIDTH];
    block[3] = letter(field::class_of(file, e));
    block[4] = b'0' + field::mode_of(file, e) as u8;
    block[5] = b'0' + field::flag_of(file, e) as u8;
    block[15] = star(stars, e);
    block[7..14].copy_from_slice(&place);
    block[..2].copy_from_slice(&number[3..]);
    block
}
