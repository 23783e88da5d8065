// The acyclicity relation of IMM, line by line of its definition.

ghost use Rattle.std.specs.Prelude.{◌≡◌};
ghost use Rattle.relation.specs.Rel.{nodes};
ghost use Rattle.relation.specs.Bits.{edge};
ghost use Rattle.models.specs.Term.{eval};
ghost use Rattle.models.specs.Imm as imm;
ghost use Rattle.verdict.specs.Base.{base_of};
ghost use Rattle.clause.specs.Steps.{Held};

use relation::grid;
use relation::grid::Grid;
use verdict::base::Base;

// The clauses of bob: po ; [Wrel], [Racq] ; po, po ; [F], [F] ; po, [Wrel] ; po-loc ; [W]
fn bob(b: &Base) -> [Grid; 5]
    ensures { Held imm.bob_clauses (base_of b.now) result }
{
    [
        grid::into(b.po, b.wrel),
        grid::from(b.racq, b.po),
        grid::into(b.po, b.fences),
        grid::from(b.fences, b.po),
        grid::from(b.wrel, grid::into(b.poloc(), b.writes)),
    ]
}

// deps = data ∪ ctrl ∪ addr ; po? ∪ casdep ∪ [Rex] ; po
fn deps(b: &Base) -> Grid
    ensures { edge result ≡ eval nodes imm.deps (base_of b.now) }
{
    let link = grid::or(b.data, b.ctrl);
    let address = grid::then(b.addr, grid::optional(b.po, b.events));
    let links = grid::or(grid::or(link, address), b.casdep);
    grid::or(links, grid::from(b.rex, b.po))
}

// ppo = [R] ; (deps ∪ rfi)⁺ ; [W]
fn ppo(b: &Base) -> Grid
    ensures { edge result ≡ eval nodes imm.ppo (base_of b.now) }
{
    let steps = grid::closure(grid::or(deps(b), b.rfi()));
    grid::from(b.reads, grid::into(steps, b.writes))
}

// detour = (coe ; rfe) ∩ po
fn detour(b: &Base) -> Grid
    ensures { edge result ≡ eval nodes imm.detour (base_of b.now) }
{
    grid::and(grid::then(b.coe(), b.rfe()), b.po)
}

// psc = [Fsc] ; hb ; eco ; hb ; [Fsc]
fn psc(b: &Base, hb: Grid, eco: Grid) -> Grid
    ensures { edge hb ≡ eval nodes imm.hb (base_of b.now) → edge eco ≡ eval nodes imm.eco (base_of b.now)
        → edge result ≡ eval nodes imm.psc (base_of b.now) }
{
    let last = grid::then(eco, grid::into(hb, b.fsc));
    grid::then(grid::from(b.fsc, hb), last)
}

// The clauses of ar: rfe, those of bob, ppo, detour, psc, [Wstrong] ; po ; [W]
pub fn clauses(b: &Base, hb: Grid, eco: Grid) -> [Grid; 10]
    ensures { edge hb ≡ eval nodes imm.hb (base_of b.now) → edge eco ≡ eval nodes imm.eco (base_of b.now)
        → Held imm.ar_clauses (base_of b.now) result }
{
    let bob = bob(b);
    let strong = grid::from(b.wstrong, grid::into(b.po, b.writes));
    [
        b.rfe(),
        bob[0],
        bob[1],
        bob[2],
        bob[3],
        bob[4],
        ppo(b),
        detour(b),
        psc(b, hb, eco),
        strong,
    ]
}
