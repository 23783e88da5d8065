// Happens-before and extended coherence order of IMM, line by line of its definition.

ghost use Rattle.std.specs.Prelude.{◌≡◌};
ghost use Rattle.relation.specs.Rel.{nodes};
ghost use Rattle.relation.specs.Bits.{edge};
ghost use Rattle.models.specs.Term.{eval, ◌∪◌};
ghost use Rattle.models.specs.Term as term;
ghost use Rattle.models.specs.Imm as imm;
ghost use Rattle.verdict.specs.Base.{base_of};

use relation::grid;
use relation::grid::Grid;
use verdict::base::Base;

// rs = [W] ; po-loc ; [W] ∪ [W] ; (po-loc? ; rf ; rmw)*
fn rs(b: &Base) -> Grid
    ensures { edge result ≡ eval nodes imm.rs (base_of b.now) }
{
    let poloc = b.poloc();
    let later = grid::from(b.writes, grid::into(poloc, b.writes));
    let pair = grid::then(grid::optional(poloc, b.events), grid::then(b.rf, b.rmw));
    grid::or(later, grid::from(b.writes, grid::star(pair, b.events)))
}

// release = ([Wrel] ∪ [Frel] ; po) ; rs
fn release(b: &Base) -> Grid
    ensures { edge result ≡ eval nodes imm.release (base_of b.now) }
{
    grid::then(
        grid::or(grid::identity(b.wrel), grid::from(b.frel, b.po)),
        rs(b),
    )
}

// sw = release ; (rfi ∪ po-loc? ; rfe) ; ([Racq] ∪ po ; [Facq])
pub fn sw(b: &Base) -> Grid
    ensures { edge result ≡ eval nodes imm.sw (base_of b.now) }
{
    let read = grid::or(
        b.rfi(),
        grid::then(grid::optional(b.poloc(), b.events), b.rfe()),
    );
    let end = grid::or(grid::identity(b.racq), grid::into(b.po, b.facq));
    grid::then(release(b), grid::then(read, end))
}

// po ∪ sw, the steps of hb
pub fn steps(b: &Base) -> Grid
    ensures { edge result ≡ eval nodes (term.po ∪ imm.sw) (base_of b.now) }
{
    grid::or(b.po, sw(b))
}

// eco = rf ∪ co ; rf? ∪ fr ; rf?
pub fn eco(b: &Base, fr: Grid) -> Grid
    ensures { edge fr ≡ eval nodes term.fr (base_of b.now) → edge result ≡ eval nodes imm.eco (base_of b.now) }
{
    grid::or(
        b.rf,
        grid::then(grid::or(b.co, fr), grid::optional(b.rf, b.events)),
    )
}
