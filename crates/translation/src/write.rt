// Writing the translation of a source file that loads: header, event records, link records.

ghost use Rattle.std.specs.Prelude.{◌≡◌, suc, ◌+◌, ◌*◌, ◌≤◌, ◌<◌, length};
ghost use Rattle.relation.specs.Rel.{count};
ghost use Rattle.relation.specs.Bits.{bit, edge};
ghost use Rattle.output.specs.Output.{placed};
ghost use Rattle.translation.specs.Contents.{contents};
ghost use Rattle.translation.specs.Translate.{new_events};
ghost use Rattle.translation.specs.Encode.{chained, links_before, links_up_to, header, event_records, link_records, records};
ghost use Rattle.translation.specs.Translation.{chip};
ghost use Rattle.translation.specs.Parts.{Source, NewEvent, Ready, Ends, row_record, link_stretch};

use crate::{event, link};
use relation::grid::Grid;
use relation::row;
use relation::row::Row;

// The header: kind 2, the new N and M, the old L and heads.
pub fn header(file: &[u8], n: usize, m: usize) -> [u8; 8]
    requires { Source file.now × (n ≡ new_events (contents file.now)) × (m ≡ links_up_to (chip file.now) n) }
    ensures { result ≡ header (chip file.now) }
{
    [
        2, n as u8, file[2], m as u8, file[4], file[5], file[6], file[7],
    ]
}

// The number after n, where it is at most the last, else 0.
pub fn chained(last: usize, n: usize) -> usize
    ensures { (result ≡ chained last n) × (result ≤ last) }
{
    if n < last {
        return n + 1;
    }
    0
}

// Writes the event records behind the header, where there are n events.
pub fn write_events(out: &mut [u8], file: &[u8], ends: [u8; 64], n: usize)
    requires { Source file.now × Ends file.now n ends × (n ≡ new_events (contents file.now)) × (8 + 8 * n ≤ length out.old) }
    ensures { out.new ≡ placed out.old 8 (event_records (chip file.now) (suc n)) }
{
    let mut before = 0;
    for e in 1..=n {
        let last = ends[e] as usize;
        let record = event::record(file, e, chained(last, before));
        output::put(out, 8 * e, &record);
        before = last;
    }
}

// Writes the links of type t into one event from the sources of a row, where n links come before them and last is the number of the
// last link into that event. Answers how many links then are written.
pub fn write_row(part: &mut [u8], row: Row, t: usize, last: usize, n: usize) -> usize
    requires { (t < 8) × (last < 256) × (n < 256) × (4 * (n + count 64 (bit row)) ≤ length part.old) }
    ensures { (result ≡ n + count 64 (bit row)) × (part.new ≡ placed part.old (4 * n) (records (row_record t last n (bit row)) (bit row) 64)) }
{
    let mut m = n;
    for a in row::members(row) {
        let record = [chained(last, m + 1) as u8, t as u8, a as u8, 0];
        output::put(part, 4 * m, &record);
        m += 1;
    }
    m
}

// Writes the links into b, where n links come before them and last is the number of the last. Answers how many links then are written.
pub fn write_into(
    part: &mut [u8],
    file: &[u8],
    ctrl: Grid,
    b: usize,
    n: usize,
    last: usize,
) -> usize
    requires { (last ≡ links_up_to (chip file.now) b) × Ready file.now (edge ctrl) × NewEvent (contents file.now) b × (n ≡ links_before (chip file.now) (512 * b)) × (4 * links_up_to (chip file.now) b ≤ length part.old) }
    ensures { (result ≡ links_up_to (chip file.now) b) × (part.new ≡ placed part.old (4 * n) (link_stretch (chip file.now) (512 * b) 512)) }
{
    let rows = link::rows(file, ctrl, b);
    let mut m = n;
    for t in 0..8 {
        m = write_row(part, rows[t], t, last, m);
    }
    m
}

// The link writer: writes the links at the start of the part that lies behind the events, where there are n events.
pub fn write_links(part: &mut [u8], file: &[u8], ctrl: Grid, ends: [u8; 64], n: usize)
    requires { Ends file.now n ends × Ready file.now (edge ctrl) × (n ≡ new_events (contents file.now)) × (4 * links_up_to (chip file.now) n ≤ length part.old) }
    ensures { part.new ≡ placed part.old 0 (link_records (chip file.now) (512 * suc n)) }
{
    let mut m = 0;
    for b in 1..=n {
        m = write_into(part, file, ctrl, b, m, ends[b] as usize);
    }
}
