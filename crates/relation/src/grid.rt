// A relation as a grid of 64 rows: j is in row i where the relation holds from i to j.
// A grid is an array of arrays by value.

ghost use Rattle.std.specs.Prelude.{◌≡◌, ℕ, ◌<◌, [], get_or};
ghost use Rattle.relation.specs.Rel.{none, pair, either, both, minus, inverse, identity, product, from, into, image, compose, plus, optional, star, diagonal, nodes};
ghost use Rattle.relation.specs.Bits.{bit, edge};

use crate::row;
use crate::row::Row;

// A relation.
pub type Grid = [[u8; 8]; 64];

// The empty relation.
pub fn empty() -> Grid
    ensures { edge result ≡ none }
{
    [[0u8; 8]; 64]
}

// The events that i is related to.
pub fn row_of(g: Grid, i: usize) -> Row
    requires { i < 64 }
    ensures { bit result ≡ edge g i }
{
    g[i]
}

// Whether the relation holds from i to j.
pub fn has(g: Grid, i: usize, j: usize) -> bool
    requires { (i < 64) × (j < 64) }
    ensures { result ≡ edge g i j }
{
    let r = g[i];
    row::has(r, j)
}

// The relation with the pair (i, j).
pub fn with(g: Grid, i: usize, j: usize) -> Grid
    requires { (i < 64) × (j < 64) }
    ensures { edge result ≡ either (edge g) (pair i j) }
{
    let mut h = g;
    let r = h[i];
    h[i] = row::with(r, j);
    h
}

// The relation whose row of each event is made of its rows in a and b.
fn row_by_row<F: Fn(Row, Row) -> Row>(a: Grid, b: Grid, join: F) -> Grid
    requires { F.IsAlwaysCallable join }
    ensures { (i : ℕ) → i < 64 → F.post join (get_or a i []) (get_or b i []) (get_or result i []) }
{
    let mut h = a;
    for i in 0..64 {
        h[i] = join(a[i], b[i]);
    }
    h
}

// Union.
pub fn or(a: Grid, b: Grid) -> Grid
    ensures { edge result ≡ either (edge a) (edge b) }
{
    row_by_row(a, b, row::or)
}

// Intersection.
pub fn and(a: Grid, b: Grid) -> Grid
    ensures { edge result ≡ both (edge a) (edge b) }
{
    row_by_row(a, b, row::and)
}

// Difference.
pub fn minus(a: Grid, b: Grid) -> Grid
    ensures { edge result ≡ minus (edge a) (edge b) }
{
    row_by_row(a, b, row::minus)
}

// What g reaches from s in one step; by reference, so that a call copies no grid.
fn reached(s: Row, g: &Grid) -> Row
    ensures { bit result ≡ image nodes (bit s) (edge g.now) }
{
    let mut r = row::none();
    for i in row::members(s) {
        let more = row::or(r, g[i]);
        r = more;
    }
    r
}

// What g reaches from s in one step.
pub fn image(s: Row, g: Grid) -> Row
    ensures { bit result ≡ image nodes (bit s) (edge g) }
{
    reached(s, &g)
}

// a, then b.
pub fn then(a: Grid, b: Grid) -> Grid
    ensures { edge result ≡ compose nodes (edge a) (edge b) }
{
    let mut h = a;
    for i in 0..64 {
        h[i] = reached(a[i], &b);
    }
    h
}

// The identity on s.
pub fn identity(s: Row) -> Grid
    ensures { edge result ≡ identity (bit s) }
{
    let mut h = empty();
    for i in 0..64 {
        if row::has(s, i) {
            h[i] = row::with(row::none(), i);
        }
    }
    h
}

// From every event of s to every event of t.
pub fn product(s: Row, t: Row) -> Grid
    ensures { edge result ≡ product (bit s) (bit t) }
{
    let mut h = empty();
    for i in 0..64 {
        if row::has(s, i) {
            h[i] = t;
        }
    }
    h
}

// g from events of s only.
pub fn from(s: Row, g: Grid) -> Grid
    ensures { edge result ≡ from (bit s) (edge g) }
{
    let mut h = empty();
    for i in 0..64 {
        if row::has(s, i) {
            h[i] = g[i];
        }
    }
    h
}

// g into events of s only.
pub fn into(g: Grid, s: Row) -> Grid
    ensures { edge result ≡ into (edge g) (bit s) }
{
    let mut h = g;
    for i in 0..64 {
        h[i] = row::and(g[i], s);
    }
    h
}

// The events that pass a test.
fn passing<F: Fn(usize) -> bool>(test: F) -> Row
    requires { (i : ℕ) → i < 64 → F.pre test i }
    ensures { (i : ℕ) → i < 64 → F.post test i (bit result i) }
{
    let mut r = row::none();
    for i in 0..64 {
        if test(i) {
            let more = row::with(r, i);
            r = more;
        }
    }
    r
}

// The events that are related to j.
pub fn column(g: Grid, j: usize) -> Row
    requires { j < 64 }
    ensures { bit result ≡ inverse (edge g) j }
{
    passing(|i| row::has(g[i], j))
}

// The relation the other way round.
pub fn inverse(g: Grid) -> Grid
    ensures { edge result ≡ inverse (edge g) }
{
    let mut h = empty();
    for i in 0..64 {
        for j in row::members(g[i]) {
            h[j] = row::with(h[j], i);
        }
    }
    h
}

// The events that are related to themselves.
pub fn diagonal(g: Grid) -> Row
    ensures { bit result ≡ diagonal (edge g) }
{
    passing(|i| row::has(g[i], i))
}

// The diagonal of a ; b⁻¹: the events whose rows of a and b share a member.
pub fn returning(a: Grid, b: Grid) -> Row
    ensures { bit result ≡ diagonal (compose nodes (edge a) (inverse (edge b))) }
{
    passing(|i| !row::is_empty(row::and(a[i], b[i])))
}

// g, or the identity on s.
pub fn optional(g: Grid, s: Row) -> Grid
    ensures { edge result ≡ optional (bit s) (edge g) }
{
    or(g, identity(s))
}

// One or more steps of g: a round for each event k joins two steps that meet in k.
pub fn closure(g: Grid) -> Grid
    ensures { edge result ≡ plus nodes (edge g) }
{
    let mut h = g;
    for k in 0..64 {
        let y = h[k];
        if !row::is_empty(y) {
            for i in 0..64 {
                let x = h[i];
                h[i] = row::or(x, row::given(row::has(x, k), y));
            }
        }
    }
    h
}

// Any number of steps of g, on the events s.
pub fn star(g: Grid, s: Row) -> Grid
    ensures { edge result ≡ star nodes (bit s) (edge g) }
{
    optional(closure(g), s)
}
