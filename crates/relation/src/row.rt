// A set of events as a row of eight bytes, one bit per event: event j is bit j % 8 of byte j / 8.

ghost use Rattle.std.specs.Prelude.{◌≡◌, not, ◌<◌, ◌≤◌, IfSome};
ghost use Rattle.relation.specs.Rel.{empty, single, given, union, intersection, difference, smallest, some, nodes, count, members};
ghost use Rattle.std.specs.Iterator.{YieldsFirst, item_count};
ghost use Rattle.relation.specs.Bits.{on, bit, byte_or};
ghost use Rattle.relation.specs.Ring.{under};

// A set of events.
pub type Row = [u8; 8];

// The empty set.
pub fn none() -> Row
    ensures { bit result ≡ empty }
{
    [0u8; 8]
}

// Every number that a row has a bit for.
pub fn all() -> Row
    ensures { bit result ≡ under 64 }
{
    [255u8; 8]
}

// The row as one number, whose bit j is event j.
fn word(row: Row) -> u64
    ensures { bit row ≡ on result }
{
    (row[0] as u64)
        + 0x100 * (row[1] as u64)
        + 0x10000 * (row[2] as u64)
        + 0x1000000 * (row[3] as u64)
        + 0x100000000 * (row[4] as u64)
        + 0x10000000000 * (row[5] as u64)
        + 0x1000000000000 * (row[6] as u64)
        + 0x100000000000000 * (row[7] as u64)
}

// The row whose bits are those of a number.
fn bytes(w: u64) -> Row
    ensures { bit result ≡ on w }
{
    [
        (w % 256) as u8,
        ((w >> 8) % 256) as u8,
        ((w >> 16) % 256) as u8,
        ((w >> 24) % 256) as u8,
        ((w >> 32) % 256) as u8,
        ((w >> 40) % 256) as u8,
        ((w >> 48) % 256) as u8,
        ((w >> 56) % 256) as u8,
    ]
}

// The numbers below n.
pub fn below(n: usize) -> Row
    requires { n ≤ 64 }
    ensures { bit result ≡ under n }
{
    if n == 64 {
        return all();
    }
    bytes((1u64 << n) - 1)
}

// Whether j is in the set.
pub fn has(row: Row, j: usize) -> bool
    requires { j < 64 }
    ensures { result ≡ bit row j }
{
    (word(row) >> j) & 1 == 1
}

// The set with j.
pub fn with(row: Row, j: usize) -> Row
    requires { j < 64 }
    ensures { bit result ≡ union (bit row) (single j) }
{
    bytes(word(row) | (1u64 << j))
}

// The set without j.
pub fn without(row: Row, j: usize) -> Row
    requires { j < 64 }
    ensures { bit result ≡ difference (bit row) (single j) }
{
    let w = word(row);
    bytes(w ^ (w & (1u64 << j)))
}

// The set if b holds, otherwise empty.
pub fn given(b: bool, row: Row) -> Row
    ensures { bit result ≡ given b (bit row) }
{
    if b {
        return row;
    }
    none()
}

// Two rows or-ed as one word: "the bytes are those of the byte by byte or" (02, slip 4).
fn joined(a: Row, b: Row) -> Row
    ensures { result ≡ byte_or a b }
{
    bytes(word(a) | word(b))
}

// Union.
pub fn or(a: Row, b: Row) -> Row
    ensures { bit result ≡ union (bit a) (bit b) }
{
    joined(a, b)
}

// Intersection.
pub fn and(a: Row, b: Row) -> Row
    ensures { bit result ≡ intersection (bit a) (bit b) }
{
    bytes(word(a) & word(b))
}

// Difference.
pub fn minus(a: Row, b: Row) -> Row
    ensures { bit result ≡ difference (bit a) (bit b) }
{
    let w = word(a);
    bytes(w ^ (w & word(b)))
}

// The smallest member, where there is one.
pub fn first(row: Row) -> Option<usize>
    ensures { result ≡ smallest (bit row) }
{
    let w = word(row);
    if w == 0 {
        return None;
    }
    Some(w.trailing_zeros() as usize)
}

// Whether no number is a member.
pub fn is_empty(row: Row) -> bool
    ensures { result ≡ not (some nodes (bit row)) }
{
    word(row) == 0
}

// How many members there are.
pub fn size(row: Row) -> usize
    ensures { result ≡ count 64 (bit row) }
{
    u64::count_ones(word(row)) as usize
}

// The members of a set, the smallest first.
pub fn members(row: Row) -> MemberIter
    ensures { on result.rest ≡ bit row }
{
    MemberIter { rest: word(row) }
}

// Goes over the members of a set, the smallest first: those left are the bits of a number.
#[derive(Clone, Copy)]
pub struct MemberIter {
    rest: u64,
}

impl Iterator for MemberIter {
    type Item = usize;

    ghost next_gives = { λ s j t. YieldsFirst (λ s. members (on s.rest)) s j t × IfSome j (λ j. j < 64) };

    ghost remaining = { item_count (λ s. members (on s.rest)) };

    fn next(&mut self) -> Option<usize> {
        let w = self.rest;
        if w == 0 {
            return None;
        }
        let j = w.trailing_zeros();
        self.rest = w ^ (w & (1u64 << j));
        Some(j as usize)
    }
}
