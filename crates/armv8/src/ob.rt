// The ordered-before relation of ARMv8, line by line of its definition.

ghost use Rattle.std.specs.Prelude.{◌≡◌};
ghost use Rattle.relation.specs.Rel.{nodes};
ghost use Rattle.relation.specs.Bits.{edge};
ghost use Rattle.models.specs.Term.{eval, frₑ};
ghost use Rattle.models.specs.Armv8 as armv8;
ghost use Rattle.verdict.specs.Base.{base_of};
ghost use Rattle.clause.specs.Steps.{Held};

use relation::grid;
use relation::grid::Grid;
use verdict::base::Base;

// The clauses of dob: (addr ∪ data) ; rfi?, (ctrl ∪ data) ; [W] ; coi?, addr ; po ; [W], (ctrl ∪ addr ; po) ; [Fisb] ; po ; [R]
fn dob(b: &Base) -> [Grid; 4]
    ensures { Held armv8.dob_clauses (base_of b.now) result }
{
    let read = grid::then(grid::or(b.addr, b.data), grid::optional(b.rfi(), b.events));
    let write = grid::then(
        grid::into(grid::or(b.ctrl, b.data), b.writes),
        grid::optional(b.coi(), b.events),
    );
    let later = grid::then(b.addr, b.po);
    let barrier = grid::then(
        grid::into(grid::or(b.ctrl, later), b.fisb),
        grid::into(b.po, b.reads),
    );
    [read, write, grid::into(later, b.writes), barrier]
}

// The clauses of aob: rmw, [codom(rmw)] ; rfi ; [Racq]
fn aob(b: &Base) -> [Grid; 2]
    ensures { Held armv8.aob_clauses (base_of b.now) result }
{
    let exclusive = grid::image(b.events, b.rmw);
    [b.rmw, grid::from(exclusive, grid::into(b.rfi(), b.racq))]
}

// The clauses of bob: po ; [Fsy] ; po, [R] ; po ; [Fld] ; po, [Racq] ; po, po ; [Wrel] ; coi?, [Wrel] ; po ; [Racq]
fn bob(b: &Base) -> [Grid; 5]
    ensures { Held armv8.bob_clauses (base_of b.now) result }
{
    [
        grid::then(grid::into(b.po, b.fsy), b.po),
        grid::from(b.reads, grid::then(grid::into(b.po, b.fld), b.po)),
        grid::from(b.racq, b.po),
        grid::then(grid::into(b.po, b.wrel), grid::optional(b.coi(), b.events)),
        grid::from(b.wrel, grid::into(b.po, b.racq)),
    ]
}

// The clauses of ob: those of obs, dob, aob and bob.
pub fn clauses(b: &Base, fre: Grid) -> [Grid; 14]
    ensures { edge fre ≡ eval nodes frₑ (base_of b.now) → Held armv8.ob_clauses (base_of b.now) result }
{
    let dob = dob(b);
    let aob = aob(b);
    let bob = bob(b);
    [
        b.rfe(),
        fre,
        b.coe(),
        dob[0],
        dob[1],
        dob[2],
        dob[3],
        aob[0],
        aob[1],
        bob[0],
        bob[1],
        bob[2],
        bob[3],
        bob[4],
    ]
}
