// Reading a file whose limits and length are right: bytes of records, and what they say of an event.
// Every number may be asked for. One below 56 that has no record gives 0 or false; one from 56 on gives what an initial write has (specs/Decode.antt).

ghost use Rattle.std.specs.Prelude.{◌≡◌, ◌≤◌, ◌<◌};
ghost use Rattle.models.specs.Recording.{event, of_class, flagged, access};
ghost use Rattle.layout.specs.Layout.{side, events, locations, links, event_byte, link_byte, Sized};
ghost use Rattle.layout.specs.Decode.{is_recorded, is_initial, field_or, decode};

use crate::kind;

// The side of the file: whether it is a source recording.
pub fn side(file: &[u8]) -> bool
    requires { Sized file.now }
    ensures { result ≡ side file.now }
{
    kind::side_of(file[0] as usize)
}

// The number of event records.
pub fn events(file: &[u8]) -> usize
    requires { Sized file.now }
    ensures { (result ≡ events file.now) × (result ≤ 48) }
{
    file[1] as usize
}

// The number of link records.
pub fn links(file: &[u8]) -> usize
    requires { Sized file.now }
    ensures { (result ≡ links file.now) × (result < 256) }
{
    file[3] as usize
}

// The number of locations.
pub fn locations(file: &[u8]) -> usize
    requires { Sized file.now }
    ensures { (result ≡ locations file.now) × (result ≤ 8) }
{
    file[2] as usize
}

// Byte k of event record i.
pub fn event_byte(file: &[u8], i: usize, k: usize) -> usize
    requires { Sized file.now × (1 ≤ i) × (i ≤ events file.now) × (k < 8) }
    ensures { (result ≡ event_byte file.now i k) × (result < 256) }
{
    file[8 + 8 * (i - 1) + k] as usize
}

// Byte k of link record m.
pub fn link_byte(file: &[u8], m: usize, k: usize) -> usize
    requires { Sized file.now × (1 ≤ m) × (m ≤ links file.now) × (k < 4) }
    ensures { (result ≡ link_byte file.now m k) × (result < 256) }
{
    let n = events(file);
    file[8 + 8 * n + 4 * (m - 1) + k] as usize
}

// Whether e has a record.
pub fn is_recorded(file: &[u8], e: usize) -> bool
    requires { Sized file.now }
    ensures { result ≡ is_recorded file.now e }
{
    let n = events(file);
    1 <= e && e <= n
}

// Whether e is an initial write.
pub fn is_initial(file: &[u8], e: usize) -> bool
    requires { Sized file.now }
    ensures { result ≡ is_initial file.now e }
{
    let l = locations(file);
    56 <= e && e < 56 + l
}

// Byte k of an event's record; given for an initial write.
pub fn field(file: &[u8], e: usize, k: usize, given: usize) -> usize
    requires { Sized file.now × (k < 8) × (given < 256) }
    ensures { (result ≡ field_or file.now k given e) × (result < 256) }
{
    if 56 <= e {
        return given;
    }
    if is_recorded(file, e) {
        return event_byte(file, e, k);
    }
    0
}

// The class of e: 1 read, 2 write, 3 fence.
pub fn class_of(file: &[u8], e: usize) -> usize
    requires { Sized file.now }
    ensures { (result ≡ (decode file.now).class e) × (result < 256) }
{
    field(file, e, 1, 2)
}

// The mode of e.
pub fn mode_of(file: &[u8], e: usize) -> usize
    requires { Sized file.now }
    ensures { (result ≡ (decode file.now).mode e) × (result < 256) }
{
    field(file, e, 2, 0)
}

// The flag of e.
pub fn flag_of(file: &[u8], e: usize) -> usize
    requires { Sized file.now }
    ensures { (result ≡ (decode file.now).flag e) × (result < 256) }
{
    field(file, e, 3, 0)
}

// The location of e.
pub fn location_of(file: &[u8], e: usize) -> usize
    requires { Sized file.now }
    ensures { result ≡ (decode file.now).location e }
{
    if 56 <= e {
        e - 56
    } else {
        field(file, e, 4, 0)
    }
}

// The value of e, 16 bits, low byte first.
pub fn value_of(file: &[u8], e: usize) -> usize
    requires { Sized file.now }
    ensures { result ≡ (decode file.now).value e }
{
    field(file, e, 5, 0) + 256 * field(file, e, 6, 0)
}

// Whether e is an initial write or has a record.
pub fn is_event(file: &[u8], e: usize) -> bool
    requires { Sized file.now }
    ensures { result ≡ event (decode file.now) e }
{
    is_initial(file, e) || is_recorded(file, e)
}

// Whether e is an event of class k.
pub fn of_class(file: &[u8], e: usize, k: usize) -> bool
    requires { Sized file.now }
    ensures { result ≡ of_class (decode file.now) k e }
{
    is_event(file, e) && class_of(file, e) == k
}

// Whether e is an event of class k with flag 1.
pub fn is_flagged(file: &[u8], e: usize, k: usize) -> bool
    requires { Sized file.now }
    ensures { result ≡ flagged (decode file.now) k e }
{
    of_class(file, e, k) && flag_of(file, e) == 1
}

// Whether e is a read or a write.
pub fn is_access(file: &[u8], e: usize) -> bool
    requires { Sized file.now }
    ensures { result ≡ access (decode file.now) e }
{
    of_class(file, e, 1) || of_class(file, e, 2)
}
