// The links into one event, gathered along its chain.

ghost use Rattle.std.specs.Prelude.{◌≡◌, true, ◌≤◌, ◌<◌, IfSome};
ghost use Rattle.std.specs.Iterator.{YieldsFirst, item_count};
ghost use Rattle.relation.specs.Bits.{bit};
ghost use Rattle.relation.specs.Rel.{inverse};
ghost use Rattle.layout.specs.Layout.{events, Sized};
ghost use Rattle.layout.specs.Chains.{all_of, links_into};
ghost use Rattle.layout.specs.Decode.{decode};
ghost use Rattle.reading.specs.Sets.{SourcesInto};
ghost use Rattle.reading.specs.Readable.{within, readable};

use layout::chain::Cursor;
use layout::field;
use relation::row;
use relation::row::Row;
use std::marker::Model;

// Goes along the links into one event, in the order of their chain: the cursor stands at the next, and at most `left` are followed.
#[derive(Drop)]
pub struct LinkIter<'a> {
    file: &'a [u8],
    from: usize,
    cursor: Cursor,
    left: usize,
}

impl<'a> Model for LinkIter<'a> {
    ghost use Rattle.std.specs.Prelude.{List, ℕ};

    ghost Value = { List ℕ };

    ghost use Rattle.reading.specs.Readable.{links_from, Walk};

    ghost view = { λ s. links_from s.file.now s.left s.cursor.at };

    ghost invariant = { λ s. Walk s.file.now s.from s.left s.cursor.at };
}

impl<'a> Iterator for LinkIter<'a> {
    type Item = usize;

    ghost next_gives = { λ s m t. YieldsFirst (λ l. l) s m t × IfSome m (λ m. 1 ≤ m) };

    ghost remaining = { item_count (λ l. l) };

    fn next(&mut self) -> Option<usize> {
        let m = self.cursor.at;
        if self.left == 0 || m == 0 {
            return None;
        }
        self.left -= 1;
        self.cursor = self.cursor.moved(self.file, self.from, 4);
        Some(m)
    }
}

// The links into b, in the order of their chain.
pub fn into(file: &[u8], b: usize) -> LinkIter<'_>
    requires { Sized file.now × (1 ≤ b) × (b ≤ events file.now) × (all_of (links_into file.now b) (within file.now) ≡ true) }
    ensures { result ≡ links_into file.now b }
{
    LinkIter {
        file,
        from: 8 + 8 * field::events(file),
        cursor: Cursor::start(file, 15, 8, b - 1),
        left: field::links(file) + 1,
    }
}

// The sources of the links of type t into b.
pub fn sources(file: &[u8], b: usize, t: usize) -> Row
    requires { Sized file.now × (1 ≤ b) × (b ≤ events file.now) × (all_of (links_into file.now b) (readable file.now) ≡ true) }
    ensures { bit result ≡ inverse ((decode file.now).link t) b }
{
    let mut row = row::none();
    for m in into(file, b) {
        if field::link_byte(file, m, 1) == t {
            let more = row::with(row, field::link_byte(file, m, 2));
            row = more;
        }
    }
    row
}

// The sources of the links into b, with a row for each type below 8.
pub fn by_type(file: &[u8], b: usize) -> [Row; 8]
    requires { Sized file.now × (1 ≤ b) × (b ≤ events file.now) × (all_of (links_into file.now b) (readable file.now) ≡ true) }
    ensures { SourcesInto file.now b result }
{
    let mut rows = [row::none(); 8];
    for m in into(file, b) {
        let t = field::link_byte(file, m, 1);
        if t < 8 {
            let x = rows[t];
            rows[t] = row::with(x, field::link_byte(file, m, 2));
        }
    }
    rows
}
