// The causes of refusal, tried in their order, and loading.

ghost use Rattle.std.specs.Prelude.{◌≡◌, not, ◌≤◌, ◌<◌, length};
ghost use Rattle.relation.specs.Bits.{edge};
ghost use Rattle.relation.specs.Rel.{nodes};
ghost use Rattle.models.specs.Graph.{base};
ghost use Rattle.models.specs.Rules.{first};
ghost use Rattle.layout.specs.Layout.{events, threads, Sized};
ghost use Rattle.layout.specs.Chains.{each};
ghost use Rattle.layout.specs.Decode.{decode};
ghost use Rattle.reading.specs.Readable.{Readable, Chained};
ghost use Rattle.recording.specs.Causes.{too_long, links_sound_at, paired_at, header_over, header_causes, record_causes, link_causes, bad_threads, long_thread, bad_chains, co_ring};
ghost use Rattle.refusal.specs.Refusal.{number_of};
ghost use Rattle.recording.specs.Load.{header_of, Loads, cause_for};

use crate::{Header, legal, links};
use layout::{chain, field, kind};
use reading::{graph, thread};
use refusal::Refusal;
use relation::grid::Grid;
use relation::{grid, row};

// Whether all links are sound.
pub fn links_sound(file: &[u8], po: &Grid) -> bool
    requires { Chained file.now × (edge po.now ≡ (base nodes (decode file.now)).po) }
    ensures { result ≡ each (events file.now) (links_sound_at file.now) }
{
    let n = field::events(file);
    (1..=n).all(|b| links::sound_into(file, po, b))
}

// Whether e is no strong write, or has an rmw.
#[tactic(auto, using(crate::proofs::LegalLaws::legal_tests), unfolding(crate::specs::Causes::paired_at))]
pub fn paired_at(file: &[u8], e: usize) -> bool
    requires { Readable file.now }
    ensures { result ≡ paired_at file.now e }
{
    !field::is_flagged(file, e, 2) || !row::is_empty(graph::sources_of(file, e, 3))
}

// Whether every strong write has an rmw.
pub fn paired(file: &[u8]) -> bool
    requires { Readable file.now }
    ensures { result ≡ each (events file.now) (paired_at file.now) }
{
    let n = field::events(file);
    (1..=n).all(|e| paired_at(file, e))
}

// Whether co leads back to its start. No step of it leads to an initial write, so links decide.
#[tactic(auto, using(crate::proofs::CoherenceLaws::co_ring_is))]
pub fn co_ring(file: &[u8]) -> bool
    requires { Readable file.now }
    ensures { result ≡ co_ring file.now }
{
    let reached = grid::closure(graph::link_rows(file, 2));
    !row::is_empty(grid::diagonal(reached))
}

// Whether the thread chains meet every event once: four heads from byte 4 on, event records of 8 bytes from byte 8 on.
#[tactic(auto, unfolding(crate::specs::Causes::bad_threads))]
pub fn threads_sound(file: &[u8]) -> bool
    requires { Sized file.now }
    ensures { not result ≡ bad_threads file.now }
{
    let n = field::events(file);
    chain::once_each(file, 4, 1, 4, 8, 8, n)
}

// Whether thread t, from 0, has more events than a file of this side may have.
#[tactic(auto, unfolding(crate::specs::Causes::too_long))]
pub fn too_long(file: &[u8], t: usize) -> bool
    requires { Sized file.now × (t < threads) }
    ensures { result ≡ too_long file.now t }
{
    let most = kind::most_in_thread(field::side(file));
    most < thread::length_of(file, t)
}

// Whether some thread has.
pub fn long_thread(file: &[u8]) -> bool
    requires { Sized file.now }
    ensures { result ≡ long_thread file.now }
{
    (0..4).any(|t| too_long(file, t))
}

// Whether the event chains meet every link once: the first link into an event is the last byte of its record, byte 15 for event 1;
// link records of 4 bytes stand behind the event records.
#[tactic(auto, unfolding(crate::specs::Causes::bad_chains))]
pub fn chains_sound(file: &[u8]) -> bool
    requires { Sized file.now }
    ensures { not result ≡ bad_chains file.now }
{
    let n = field::events(file);
    let m = field::links(file);
    chain::once_each(file, 15, 8, n, 8 + 8 * n, 4, m)
}

// Refused with the first of the causes of the records and their chains, 5, 6, 13 and 7, that applies.
#[tactic(auto, unfolding(crate::specs::Causes::record_causes, crate::specs::Causes::bad_event, models::specs::Rules::first))]
pub fn record_refusal(file: &[u8]) -> Result<(), Refusal>
    requires { Sized file.now }
    ensures { number_of result ≡ first (record_causes file.now) }
{
    if !legal::events_legal(file) {
        return Err(Refusal::BadEvent);
    }
    if !threads_sound(file) {
        return Err(Refusal::BadThreads);
    }
    if long_thread(file) {
        return Err(Refusal::LongThread);
    }
    if !chains_sound(file) {
        return Err(Refusal::BadChains);
    }
    Ok(())
}

// Refused with the first of the causes of the links, 8 to 10, that applies.
#[tactic(auto, unfolding(crate::specs::Causes::link_causes, crate::specs::Causes::bad_link, crate::specs::Causes::unpaired, models::specs::Rules::first))]
pub fn link_refusal(file: &[u8]) -> Result<(), Refusal>
    requires { Sized file.now × (first (record_causes file.now) ≡ 0) }
    ensures { number_of result ≡ first (link_causes file.now) }
{
    if !links_sound(file, &graph::program_order(file)) {
        return Err(Refusal::BadLink);
    }
    if co_ring(file) {
        return Err(Refusal::CoRing);
    }
    if !paired(file) {
        return Err(Refusal::Unpaired);
    }
    Ok(())
}

// What the header says.
pub fn header(file: &[u8]) -> Header
    requires { 8 ≤ length file.now }
    ensures { result ≡ header_of file.now }
{
    Header {
        source: kind::side_of(file[0] as usize),
        events: file[1] as usize,
        locations: file[2] as usize,
        links: file[3] as usize,
    }
}

// Whether N, L or M is over its limit.
#[tactic(auto, using(crate::proofs::LegalLaws::legal_tests), unfolding(crate::specs::Causes::header_over))]
pub fn over_limit(header: Header) -> bool
    ensures { result ≡ header_over header.source header.events header.locations header.links }
{
    kind::most_events(header.source) < header.events
        || 8 < header.locations
        || kind::most_links(header.source) < header.links
}

// Refused with the first of the causes of the header and the length, 1 to 4, that applies.
#[tactic(auto, using(crate::proofs::CauseLaws::sized_of), unfolding(crate::specs::Causes::header_causes, crate::specs::Causes::too_short, crate::specs::Causes::kind_unknown, crate::specs::Causes::over_limit, crate::specs::Causes::wrong_length, models::specs::Rules::first))]
pub fn header_refusal(file: &[u8]) -> Result<(), Refusal>
    ensures cause { number_of result ≡ first (header_causes file.now) }
    ensures sized { number_of result ≡ 0 → Sized file.now }
{
    if file.len() < 8 {
        return Err(Refusal::TooShort);
    }
    if !kind::known(file[0] as usize) {
        return Err(Refusal::KindUnknown);
    }
    let header = header(file);
    if over_limit(header) {
        return Err(Refusal::OverLimit);
    }
    if file.len() != 8 + 8 * header.events + 4 * header.links {
        return Err(Refusal::WrongLength);
    }
    Ok(())
}

// Loads a file: refused with the first cause that applies, or loaded with its header.
pub fn load(file: &[u8]) -> Result<Header, Refusal>
    ensures { Loads file.now result }
{
    header_refusal(file)?;
    record_refusal(file)?;
    link_refusal(file)?;
    Ok(header(file))
}

// Whether a file loads and is of this side: refused as loading does, and with 11 where it is of the other side.
pub fn loads_as(file: &[u8], source: bool) -> Result<(), Refusal>
    ensures { number_of result ≡ cause_for source file.now }
{
    let header = load(file)?;
    if header.source != source {
        return Err(Refusal::OtherSide);
    }
    Ok(())
}
