// What a record may say: the table of classes, modes and flags, and the conditions of the links.

#![tactic(auto, using(crate::proofs::LegalLaws::legal_tests), unfolding(crate::specs::Causes::read_legal, crate::specs::Causes::write_legal, crate::specs::Causes::fence_mode, crate::specs::Causes::fence_legal, crate::specs::Causes::legal, crate::specs::Causes::event_legal, crate::specs::Causes::same_locations, crate::specs::Causes::rf_legal, crate::specs::Causes::co_legal, crate::specs::Causes::rmw_legal, crate::specs::Causes::data_legal, crate::specs::Causes::addr_legal, crate::specs::Causes::ctrl_legal, crate::specs::Causes::casdep_legal, crate::specs::Causes::link_legal, crate::specs::Causes::link_sound))]

ghost use Rattle.std.specs.Prelude.{◌≡◌, ◌≤◌, ◌<◌};
ghost use Rattle.relation.specs.Rel.{nodes};
ghost use Rattle.models.specs.Graph.{base};
ghost use Rattle.layout.specs.Layout.{side, events, links, link_byte, Sized};
ghost use Rattle.layout.specs.Chains.{each};
ghost use Rattle.layout.specs.Decode.{decode};
ghost use Rattle.recording.specs.Causes.{read_legal, write_legal, fence_mode, fence_legal, legal, event_legal, same_locations, rf_legal, co_legal, rmw_legal, from_read, link_legal, link_sound};

use layout::field;

// The numbers of an event's record.
#[derive(Clone, Copy)]
pub struct Fields {
    pub class: usize,
    pub mode: usize,
    pub flag: usize,
    pub location: usize,
    pub value: usize,
}

// A read: mode 0 or 1, flag 0 or 1.
pub fn read_legal(mode: usize, flag: usize) -> bool
    ensures { result ≡ read_legal mode flag }
{
    mode <= 1 && flag <= 1
}

// A write: mode 0 or 2; flag 0, or 1 (strong) in a source recording.
pub fn write_legal(source: bool, mode: usize, flag: usize) -> bool
    ensures { result ≡ write_legal source mode flag }
{
    (mode == 0 || mode == 2) && (flag == 0 || (flag == 1 && source))
}

// A fence has mode 1 to 4 in a source recording, 5 to 7 in a chip recording.
pub fn fence_mode(source: bool, mode: usize) -> bool
    ensures { result ≡ fence_mode source mode }
{
    if source {
        (1..=4).contains(&mode)
    } else {
        (5..=7).contains(&mode)
    }
}

// A fence: its mode, and flag 0.
pub fn fence_legal(source: bool, mode: usize, flag: usize) -> bool
    ensures { result ≡ fence_legal source mode flag }
{
    fence_mode(source, mode) && flag == 0
}

// Whether an event's numbers are as the table says: by class, a read's or write's location is below L, a fence's location and
// value are 0.
pub fn legal(source: bool, l: usize, event: Fields) -> bool
    ensures { result ≡ legal source l event.class event.mode event.flag event.location event.value }
{
    match event.class {
        1 => read_legal(event.mode, event.flag) && event.location < l,
        2 => write_legal(source, event.mode, event.flag) && event.location < l,
        3 => fence_legal(source, event.mode, event.flag) && event.location == 0 && event.value == 0,
        _ => false,
    }
}

// Whether the record of e is as the table says.
pub fn event_legal(file: &[u8], e: usize) -> bool
    requires { Sized file.now }
    ensures { result ≡ event_legal file.now e }
{
    let event = Fields {
        class: field::class_of(file, e),
        mode: field::mode_of(file, e),
        flag: field::flag_of(file, e),
        location: field::location_of(file, e),
        value: field::value_of(file, e),
    };
    legal(field::side(file), field::locations(file), event)
}

// Whether every event record is legal.
pub fn events_legal(file: &[u8]) -> bool
    requires { Sized file.now }
    ensures { result ≡ each (events file.now) (event_legal file.now) }
{
    let n = field::events(file);
    (1..=n).all(|e| event_legal(file, e))
}

// Whether a and b have the same location.
pub fn same_location(file: &[u8], a: usize, b: usize) -> bool
    requires { Sized file.now }
    ensures { result ≡ same_locations (decode file.now) a b }
{
    field::location_of(file, a) == field::location_of(file, b)
}

// 1 rf: write to read, same location and value.
pub fn rf_legal(file: &[u8], a: usize, b: usize) -> bool
    requires { Sized file.now }
    ensures { result ≡ rf_legal (decode file.now) a b }
{
    field::of_class(file, a, 2)
        && field::of_class(file, b, 1)
        && same_location(file, a, b)
        && field::value_of(file, a) == field::value_of(file, b)
}

// 2 co: write to another recorded write of the same location.
pub fn co_legal(file: &[u8], a: usize, b: usize) -> bool
    requires { Sized file.now }
    ensures { result ≡ co_legal (decode file.now) a b }
{
    field::of_class(file, a, 2)
        && field::of_class(file, b, 2)
        && field::is_recorded(file, b)
        && a != b
        && same_location(file, a, b)
}

// Whether b directly follows a in its thread.
pub fn is_next(file: &[u8], a: usize, b: usize) -> bool
    requires { Sized file.now }
    ensures { result ≡ (decode file.now).next a b }
{
    field::is_recorded(file, a) && field::is_recorded(file, b) && field::event_byte(file, a, 0) == b
}

// 3 rmw: exclusive read to the write directly after it, same location.
pub fn rmw_legal(file: &[u8], a: usize, b: usize) -> bool
    requires { Sized file.now }
    ensures { result ≡ rmw_legal (decode file.now) a b }
{
    field::is_flagged(file, a, 1)
        && field::of_class(file, b, 2)
        && is_next(file, a, b)
        && same_location(file, a, b)
}

// Types 4 to 7: from a read to an event po-later. Here and below `later` says whether b is po-later than a.
pub fn from_read(file: &[u8], later: bool, a: usize, b: usize) -> bool
    requires { Sized file.now × (a < 64 → later ≡ (base nodes (decode file.now)).po a b) }
    ensures { result ≡ from_read (decode file.now) a b }
{
    field::of_class(file, a, 1) && later
}

// Whether a link of type t may lead from a to b: 4 data to a write, 5 addr to a read or write, 6 ctrl to any event, 7 casdep to an
// exclusive read, source only.
pub fn link_legal(file: &[u8], later: bool, t: usize, a: usize, b: usize) -> bool
    requires { Sized file.now × (a < 64 → later ≡ (base nodes (decode file.now)).po a b) }
    ensures { result ≡ link_legal (decode file.now) (side file.now) t a b }
{
    match t {
        1 => rf_legal(file, a, b),
        2 => co_legal(file, a, b),
        3 => rmw_legal(file, a, b),
        4 => from_read(file, later, a, b) && field::of_class(file, b, 2),
        5 => from_read(file, later, a, b) && field::is_access(file, b),
        6 => from_read(file, later, a, b),
        7 => from_read(file, later, a, b) && field::side(file) && field::is_flagged(file, b, 1),
        _ => false,
    }
}

// Whether the link record m into b is sound, where `later` says whether b is po-later than its source.
pub fn link_sound(file: &[u8], later: bool, m: usize, b: usize) -> bool
    requires { Sized file.now × (1 ≤ m) × (m ≤ links file.now) × (link_byte file.now m 2 < 64 → later ≡ (base nodes (decode file.now)).po (link_byte file.now m 2) b) }
    ensures { result ≡ link_sound file.now b m }
{
    let t = field::link_byte(file, m, 1);
    let a = field::link_byte(file, m, 2);
    link_legal(file, later, t, a, b) && field::link_byte(file, m, 3) == 0
}
