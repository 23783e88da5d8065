// The links of the translation of a source file that loads, as rows of sources by target and type, and how many there are.

ghost use Rattle.std.specs.Prelude.{◌≡◌, ℕ, [], ◌*◌, ◌≤◌, ◌<◌, get_or};
ghost use Rattle.relation.specs.Bits.{bit, edge};
ghost use Rattle.layout.specs.Layout.{events};
ghost use Rattle.translation.specs.Contents.{contents};
ghost use Rattle.translation.specs.Translate.{new_events, controlled, from_exclusive};
ghost use Rattle.translation.specs.Encode.{links_before, links_up_to};
ghost use Rattle.translation.specs.Translation.{chip};
ghost use Rattle.translation.specs.Parts.{Source, NewEvent, Ready, RowsInto, Ends, recorded_follows, ctrl_into};

use crate::event;
use layout::field;
use reading::graph;
use relation::grid::Grid;
use relation::row::Row;
use relation::{grid, row};

// The event that the ctrl link from the exclusive read r goes to: the one directly after r, or after its write where r has both rmw and
// data to it.
pub fn controlled(file: &[u8], r: usize) -> usize
    requires { Source file.now × (1 ≤ r) × (r ≤ events file.now) }
    ensures { (result ≡ controlled (contents file.now) r) × (result ≤ 48) }
{
    let w = field::event_byte(file, r, 0);
    let both = row::and(graph::sources_of(file, w, 3), graph::sources_of(file, w, 4));
    if row::has(both, r) {
        return event::after(file, w);
    }
    event::after(file, r)
}

// Where the added ctrl link of e goes, where e is an exclusive read.
fn from_exclusive(file: &[u8], e: usize) -> Row
    requires { Source file.now }
    ensures { bit result ≡ from_exclusive (contents file.now) e }
{
    if !field::is_flagged(file, e, 1) {
        return row::none();
    }
    row::with(row::none(), controlled(file, e))
}

// The event directly after e: where the ctrl links go that are added for casdep links to e.
fn following(file: &[u8], e: usize) -> Row
    requires { Source file.now }
    ensures { bit result ≡ recorded_follows (contents file.now) e }
{
    if !field::is_recorded(file, e) {
        return row::none();
    }
    row::with(row::none(), event::after(file, e))
}

// The grid with the row that a function gives for each event.
fn by_rows<F: Fn(usize) -> Row>(row: F) -> Grid
    requires { (e : ℕ) → e < 64 → F.pre row e }
    ensures { (e : ℕ) → e < 64 → F.post row e (get_or result e []) }
{
    let mut h = grid::empty();
    for e in 0..64 {
        h[e] = row(e);
    }
    h
}

// The ctrl links, with a row for each target: those of the source, one from each exclusive read, one for each casdep link.
pub fn ctrl(file: &[u8]) -> Grid
    requires { Source file.now }
    ensures { edge result ≡ ctrl_into (contents file.now) }
{
    let kept = graph::links(file, 6);
    let following = by_rows(
        |e|
            requires { Source file.now }
            ensures { bit result ≡ recorded_follows (contents file.entry.now) e }
        { following(file, e) },
    );
    let casdep = grid::then(graph::links(file, 7), following);
    let exclusive = by_rows(
        |e|
            requires { Source file.now }
            ensures { bit result ≡ from_exclusive (contents file.entry.now) e }
        { from_exclusive(file, e) },
    );
    grid::inverse(grid::or(kept, grid::or(exclusive, casdep)))
}

// The sources of the links into b, with a row for each type: those of the source file but for types 0, 6 and 7.
pub fn rows(file: &[u8], ctrl: Grid, b: usize) -> [Row; 8]
    requires { Ready file.now (edge ctrl) × NewEvent (contents file.now) b }
    ensures { RowsInto (contents file.now) b result }
{
    let mut h = graph::sources_by_type(file, b);
    h[0] = row::none();
    h[6] = grid::row_of(ctrl, b);
    h[7] = row::none();
    h
}

// How many links there are into events 1 to b, where there are n into smaller ones.
pub fn links_up_to(file: &[u8], ctrl: Grid, b: usize, n: usize) -> usize
    requires { Ready file.now (edge ctrl) × NewEvent (contents file.now) b × (n ≡ links_before (chip file.now) (512 * b)) }
    ensures { (result ≡ links_up_to (chip file.now) b) × (result ≤ 232) }
{
    let mut m = n;
    for row in rows(file, ctrl, b) {
        m += row::size(row);
    }
    m
}

// How many links there are into events 1 to b, for each event b of n.
pub fn ends(file: &[u8], ctrl: Grid, n: usize) -> [u8; 64]
    requires { Ready file.now (edge ctrl) × (n ≡ new_events (contents file.now)) }
    ensures { Ends file.now n result }
{
    let mut at = [0u8; 64];
    let mut m = 0;
    for b in 1..=n {
        m = links_up_to(file, ctrl, b, m);
        at[b] = m as u8;
    }
    at
}
