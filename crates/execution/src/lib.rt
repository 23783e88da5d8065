// The base of the execution graph of a loaded recording: its sets as rows, its relations as grids.

#![tactic(auto)]

ghost use Rattle.std.specs.Prelude.{◌≡◌};
ghost use Rattle.relation.specs.Bits.{bit, edge};
ghost use Rattle.relation.specs.Rel.{nodes};
ghost use Rattle.models.specs.Recording.{event};
ghost use Rattle.models.specs.Graph.{base};
ghost use Rattle.layout.specs.Decode.{decode};
ghost use Rattle.recording.specs.Causes.{refusal};
ghost use Rattle.execution.specs.Arrays.{SetsOf, RelationsOf};

use reading::{graph, sets};
use relation::grid::Grid;
use relation::row::Row;
use relation::{grid, row};
use verdict::base::Base;

// All events.
#[tactic(auto, using(crate::proofs::BaseOf::loaded))]
pub fn events(file: &[u8]) -> Row
    requires { refusal file.now ≡ 0 }
    ensures { bit result ≡ event (decode file.now) }
{
    row::or(sets::initial(file), sets::recorded(file))
}

// Control dependencies: the links, taken on to all events later in program order.
pub fn control(file: &[u8], po: Grid, links: Grid) -> Grid
    requires { (refusal file.now ≡ 0) × (edge po ≡ (base nodes (decode file.now)).po) × (edge links ≡ (decode file.now).link 6) }
    ensures { edge result ≡ (base nodes (decode file.now)).ctrl }
{
    grid::then(links, grid::optional(po, events(file)))
}

// The base: reads and writes are sorted by mode and by flag, fences by mode.
#[tactic(auto, using(crate::proofs::BaseOf::loaded))]
pub fn base(file: &[u8]) -> Base
    requires { refusal file.now ≡ 0 }
    ensures sets { SetsOf (decode file.now) result }
    ensures relations { RelationsOf (base nodes (decode file.now)) result }
{
    let initial = sets::initial(file);
    let recorded = sets::recorded(file);
    let classes = sets::sorted(file, recorded, 1);
    let reads = sets::sorted(file, classes[1], 2);
    let exclusive = sets::sorted(file, classes[1], 3);
    let writes = sets::sorted(file, classes[2], 2);
    let strong = sets::sorted(file, classes[2], 3);
    let fences = sets::sorted(file, classes[3], 2);
    let both = row::or(fences[3], fences[4]);
    let loc = graph::same_location(file);
    let po = graph::program_order(file);
    let rows = graph::rows_by_type(file);
    Base {
        events: row::or(initial, recorded),
        initial,
        reads: classes[1],
        writes: row::or(initial, classes[2]),
        fences: classes[3],
        racq: reads[1],
        rex: exclusive[1],
        wrel: writes[2],
        wstrong: strong[1],
        facq: row::or(fences[1], both),
        frel: row::or(fences[2], both),
        fsc: fences[4],
        fld: fences[5],
        fsy: fences[6],
        fisb: fences[7],
        loc,
        po,
        rf: grid::inverse(rows[1]),
        co: graph::coherence(file, grid::inverse(rows[2]), loc),
        rmw: grid::inverse(rows[3]),
        data: grid::inverse(rows[4]),
        addr: grid::inverse(rows[5]),
        ctrl: control(file, po, grid::inverse(rows[6])),
        casdep: grid::inverse(rows[7]),
    }
}
