// The conditions of the links into one event.

ghost use Rattle.std.specs.Prelude.{◌≡◌, ℕ, ◌≤◌, ◌<◌};
ghost use Rattle.relation.specs.Bits.{bit, edge};
ghost use Rattle.relation.specs.Rel.{nodes, inverse};
ghost use Rattle.models.specs.Recording.{Recording};
ghost use Rattle.models.specs.Graph.{base};
ghost use Rattle.layout.specs.Layout.{events, links, Sized};
ghost use Rattle.layout.specs.Chains.{all_of, links_into};
ghost use Rattle.layout.specs.Decode.{decode};
ghost use Rattle.reading.specs.Readable.{Chained};
ghost use Rattle.recording.specs.Causes.{one_source, link_sound, links_sound_at};

use crate::legal;
use layout::field;
use reading::links;
use relation::grid::Grid;
use relation::row;
use relation::row::Row;

// Whether a row, the rf sources of an event, has one member at most.
#[tactic(auto, using(crate::proofs::CauseLaws::one_source_of))]
pub fn one_source(row: Row) -> bool
    ensures { (r : Recording ℕ) (b : ℕ) → bit row ≡ inverse (r.link 1) b → result ≡ one_source r b }
{
    row::size(row) <= 1
}

// Whether the link m into b is sound, where po is program order.
#[tactic(auto, using(reading::proofs::LinkLaws::row_of_source))]
pub fn sound(file: &[u8], po: &Grid, m: usize, b: usize) -> bool
    requires { Sized file.now × (edge po.now ≡ (base nodes (decode file.now)).po) × (1 ≤ m) × (m ≤ links file.now) × (b < 64) }
    ensures { result ≡ link_sound file.now b m }
{
    // The mask keeps within po; the source of a sound link is below 64.
    let after = po[field::link_byte(file, m, 2) & 63];
    legal::link_sound(file, row::has(after, b), m, b)
}

// Whether each of the links into b is sound. (Loading asks `sound_into`, which takes the rf sources on the same walk.)
pub fn each_sound(file: &[u8], po: &Grid, b: usize) -> bool
    requires { Chained file.now × (edge po.now ≡ (base nodes (decode file.now)).po) × (1 ≤ b) × (b ≤ events file.now) }
    ensures { result ≡ all_of (links_into file.now b) (link_sound file.now b) }
{
    links::into(file, b).all(
        |m|
            requires { Sized file.now × (edge po.now ≡ (base nodes (decode file.now)).po) × (1 ≤ m) × (m ≤ links file.now) × (b < 64) }
            ensures { result ≡ link_sound file.entry.now b m }
        { sound(file, po, m, b) },
    )
}

// Whether the links into b are sound, and b has one rf source.
pub fn sound_into(file: &[u8], po: &Grid, b: usize) -> bool
    requires { Chained file.now × (edge po.now ≡ (base nodes (decode file.now)).po) × (1 ≤ b) × (b ≤ events file.now) }
    ensures { result ≡ links_sound_at file.now b }
{
    let mut sources = row::none();
    for m in links::into(file, b) {
        if !sound(file, po, m, b) {
            return false;
        }
        if field::link_byte(file, m, 1) == 1 {
            let more = row::with(sources, field::link_byte(file, m, 2));
            sources = more;
        }
    }
    one_source(sources)
}
