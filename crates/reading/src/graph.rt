// The relations of a file's recording, as rows and grids.

ghost use Rattle.std.specs.Prelude.{◌≡◌, true};
ghost use Rattle.relation.specs.Bits.{bit, edge};
ghost use Rattle.relation.specs.Rel.{nodes, inverse};
ghost use Rattle.models.specs.Recording.{same_location, co_step};
ghost use Rattle.models.specs.Graph.{base};
ghost use Rattle.layout.specs.Layout.{Sized};
ghost use Rattle.layout.specs.Chains.{threads_sound};
ghost use Rattle.layout.specs.Decode.{decode};
ghost use Rattle.reading.specs.Readable.{Readable};
ghost use Rattle.reading.specs.Sets.{PlaceOf, Located, AccessRows, SourcesInto, LinkRows};

use crate::{links, sets, thread};
use layout::field;
use relation::grid::Grid;
use relation::row::Row;
use relation::{grid, row};

// Program order: every initial write before every recorded event, and earlier to later in a thread.
// Made from the last event of the line to the first: the row of what follows an event is done before its own.
pub fn program_order(file: &[u8]) -> Grid
    requires { Sized file.now × (threads_sound file.now ≡ true) }
    ensures { edge result ≡ (base nodes (decode file.now)).po }
{
    let line = thread::line(file);
    let mut h = grid::product(sets::initial(file), sets::recorded(file));
    for event in line.as_slice().iter().rev() {
        let e = *event as usize;
        let b = field::event_byte(file, e, 0);
        if b != 0 {
            let later = h[b];
            h[e] = row::with(later, b);
        }
    }
    h
}

// The sources of the links of type t into b, where b need be no event.
pub fn sources_of(file: &[u8], b: usize, t: usize) -> Row
    requires { Readable file.now }
    ensures { bit result ≡ inverse ((decode file.now).link t) b }
{
    if !field::is_recorded(file, b) {
        return row::none();
    }
    links::sources(file, b, t)
}

// The sources of the links into b, with a row for each type below 8, where b need be no event.
pub fn sources_by_type(file: &[u8], b: usize) -> [Row; 8]
    requires { Readable file.now }
    ensures { SourcesInto file.now b result }
{
    if !field::is_recorded(file, b) {
        return [row::none(); 8];
    }
    links::by_type(file, b)
}

// The links of every type, with a row for each target; those of type t stand at place t.
pub fn rows_by_type(file: &[u8]) -> [Grid; 8]
    requires { Readable file.now }
    ensures { LinkRows file.now result }
{
    let mut rows = [grid::empty(); 8];
    for b in 0..64 {
        let sources = sources_by_type(file, b);
        for t in 1..8 {
            rows[t][b] = sources[t];
        }
    }
    rows
}

// The links of type t, with a row for each target.
pub fn link_rows(file: &[u8], t: usize) -> Grid
    requires { Readable file.now }
    ensures { edge result ≡ inverse ((decode file.now).link t) }
{
    let mut rows = grid::empty();
    for b in 0..64 {
        rows[b] = sources_of(file, b, t);
    }
    rows
}

// The links of type t.
pub fn links(file: &[u8], t: usize) -> Grid
    requires { Readable file.now }
    ensures { edge result ≡ (decode file.now).link t }
{
    grid::inverse(link_rows(file, t))
}

// The location of a read or write, where it is below 8.
pub fn place_of(file: &[u8], e: usize) -> Option<usize>
    requires { Sized file.now }
    ensures { PlaceOf file.now e result }
{
    if !field::is_access(file, e) {
        return None;
    }
    let l = field::location_of(file, e);
    if l < 8 { Some(l) } else { None }
}

// The reads and writes of each location below 8.
pub fn by_location(file: &[u8]) -> [Row; 8]
    requires { Sized file.now }
    ensures { AccessRows file.now result }
{
    let mut rows = [row::none(); 8];
    for e in 0..64 {
        if let Some(l) = place_of(file, e) {
            let x = rows[l];
            rows[l] = row::with(x, e);
        }
    }
    rows
}

// The reads and writes of the same location.
pub fn same_location(file: &[u8]) -> Grid
    requires { Sized file.now × Located file.now }
    ensures { edge result ≡ same_location (decode file.now) }
{
    let rows = by_location(file);
    let mut h = grid::empty();
    for e in 0..64 {
        if let Some(l) = place_of(file, e) {
            h[e] = rows[l];
        }
    }
    h
}

// What co follows from: its links, and initial before recorded writes of one location.
pub fn co_steps(file: &[u8], links: Grid, location: Grid) -> Grid
    requires { Sized file.now × (edge links ≡ (decode file.now).link 2) × (edge location ≡ same_location (decode file.now)) }
    ensures { edge result ≡ co_step (decode file.now) }
{
    let classes = sets::sorted(file, sets::recorded(file), 1);
    let first = grid::product(sets::initial(file), classes[2]);
    grid::or(links, grid::and(first, location))
}

// Coherence order, from its links and from which events are of one location.
pub fn coherence(file: &[u8], links: Grid, location: Grid) -> Grid
    requires { Sized file.now × (edge links ≡ (decode file.now).link 2) × (edge location ≡ same_location (decode file.now)) }
    ensures { edge result ≡ (base nodes (decode file.now)).co }
{
    grid::closure(co_steps(file, links, location))
}
