// The base of an execution graph: its sets as rows, its relations as grids, and the relations that follow from them at once.

#![tactic(auto, unfolding(crate::specs::Base::base_of, models::specs::Term::eval))]

ghost use Rattle.std.specs.Prelude.{◌≡◌};
ghost use Rattle.relation.specs.Rel.{nodes};
ghost use Rattle.relation.specs.Bits.{edge};
ghost use Rattle.models.specs.Term.{eval, po_loc, rfₑ, rfᵢ, coₑ, coᵢ};
ghost use Rattle.models.specs.Term as term;

use relation::grid;
use relation::grid::Grid;
use relation::row::Row;

#[derive(Clone, Copy)]
pub struct Base {
    pub events: Row,
    pub initial: Row,
    pub reads: Row,
    pub writes: Row,
    pub fences: Row,
    pub racq: Row,
    pub rex: Row,
    pub wrel: Row,
    pub wstrong: Row,
    pub facq: Row,
    pub frel: Row,
    pub fsc: Row,
    pub fld: Row,
    pub fsy: Row,
    pub fisb: Row,
    pub loc: Grid,
    pub po: Grid,
    pub rf: Grid,
    pub co: Grid,
    pub rmw: Grid,
    pub data: Grid,
    pub addr: Grid,
    pub ctrl: Grid,
    pub casdep: Grid,
}

impl Base {
    ghost use Rattle.verdict.specs.Base.{base_of};

    // po-loc: program order between events of one location.
    pub fn poloc(&self) -> Grid
        ensures { edge result ≡ eval nodes po_loc (base_of self.now) }
    {
        grid::and(self.po, self.loc)
    }

    // rfe: rf between threads.
    pub fn rfe(&self) -> Grid
        ensures { edge result ≡ eval nodes rfₑ (base_of self.now) }
    {
        grid::minus(self.rf, self.po)
    }

    // rfi: rf within a thread.
    pub fn rfi(&self) -> Grid
        ensures { edge result ≡ eval nodes rfᵢ (base_of self.now) }
    {
        grid::and(self.rf, self.po)
    }

    // coe: co between threads.
    pub fn coe(&self) -> Grid
        ensures { edge result ≡ eval nodes coₑ (base_of self.now) }
    {
        grid::minus(self.co, self.po)
    }

    // coi: co within a thread.
    pub fn coi(&self) -> Grid
        ensures { edge result ≡ eval nodes coᵢ (base_of self.now) }
    {
        grid::and(self.co, self.po)
    }

    // fr = rf⁻¹ ; co, from a read to all writes co-after its source.
    pub fn fr(&self) -> Grid
        ensures { edge result ≡ eval nodes term.fr (base_of self.now) }
    {
        grid::then(grid::inverse(self.rf), self.co)
    }
}
