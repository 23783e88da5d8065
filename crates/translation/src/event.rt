// The events of the translation of a source file that loads: their numbers, their chain, and their records.

ghost use Rattle.std.specs.Prelude.{◌≡◌, ◌&&◌, ◌+◌, ◌*◌, ◌≤◌, ◌<◌, eqb, unwrap_or, IfSome};
ghost use Rattle.relation.specs.Rel.{count};
ghost use Rattle.layout.specs.Layout.{event_byte};
ghost use Rattle.translation.specs.Contents.{contents};
ghost use Rattle.translation.specs.Translate.{strong, inserted, new_events, fenced, after, kept_or, new_mode, new_flag};
ghost use Rattle.translation.specs.Encode.{chained, links_before, links_up_to, event_record};
ghost use Rattle.translation.specs.Translation.{chip};
ghost use Rattle.translation.specs.Parts.{Source, NewEvent};

use layout::field;

// How many strong writes have a number below e.
pub fn strong_below(file: &[u8], e: usize) -> usize
    requires { Source file.now × (e ≤ 64) }
    ensures { (result ≡ count e (strong (contents file.now))) × (result ≤ e) }
{
    let mut n = 0;
    for w in 0..e {
        if field::is_flagged(file, w, 2) {
            n += 1;
        }
    }
    n
}

// The number of the fence that is chained in after the strong write w.
pub fn inserted(file: &[u8], w: usize) -> usize
    requires { Source file.now × (w ≤ 64) }
    ensures { result ≡ inserted (contents file.now) w }
{
    field::events(file) + 1 + strong_below(file, w)
}

// The number of events of the translation.
pub fn new_events(file: &[u8]) -> usize
    requires { Source file.now }
    ensures { (result ≡ new_events (contents file.now)) × (result ≤ 48) }
{
    let n = field::events(file);
    n + strong_below(file, n + 1)
}

// Whether w is a strong write and e its fence.
pub fn is_fence_of(file: &[u8], e: usize, w: usize) -> bool
    requires { Source file.now × (w ≤ 64) }
    ensures { result ≡ strong (contents file.now) w && eqb (inserted (contents file.now) w) e }
{
    field::is_flagged(file, w, 2) && inserted(file, w) == e
}

// The strong write whose fence e is, where it is a fence that is chained in.
pub fn fenced(file: &[u8], e: usize) -> Option<usize>
    requires { Source file.now }
    ensures value { unwrap_or result 64 ≡ fenced (contents file.now) e }
    ensures within { IfSome result (λ w. w < 64) }
{
    for w in 0..64 {
        if is_fence_of(file, e, w) {
            return Some(w);
        }
    }
    None
}

// The event directly after e in the new chain, 0 where there is none.
pub fn after(file: &[u8], e: usize) -> usize
    requires { Source file.now × NewEvent (contents file.now) e }
    ensures { (result ≡ after (contents file.now) e) × (result ≤ 48) }
{
    let n = field::events(file);
    if n < e {
        return field::event_byte(file, fenced(file, e).unwrap(), 0);
    }
    if field::is_flagged(file, e, 2) {
        return inserted(file, e);
    }
    field::event_byte(file, e, 0)
}

// Byte k of the record of e, or what an inserted fence has.
pub fn kept_or(file: &[u8], e: usize, k: usize, new: usize) -> usize
    requires { Source file.now × (1 ≤ e) × (k < 8) × (new < 256) }
    ensures { (result ≡ kept_or (contents file.now) (λ x. event_byte file.now x k) new e) × (result < 256) }
{
    if field::events(file) < e {
        return new;
    }
    field::event_byte(file, e, k)
}

// The mode: that of a read or write stays, fence 1 becomes 5, fences 2, 3, 4 become 6, an inserted fence has 5.
pub fn new_mode(file: &[u8], e: usize) -> usize
    requires { Source file.now × (1 ≤ e) }
    ensures { (result ≡ kept_or (contents file.now) (new_mode (contents file.now)) 5 e) × (result < 256) }
{
    if field::events(file) < e {
        return 5;
    }
    let mode = field::event_byte(file, e, 2);
    if field::event_byte(file, e, 1) != 3 {
        return mode;
    }
    if mode == 1 {
        return 5;
    }
    6
}

// The flag: that of a strong write becomes 0, an inserted fence has 0.
pub fn new_flag(file: &[u8], e: usize) -> usize
    requires { Source file.now × (1 ≤ e) }
    ensures { (result ≡ kept_or (contents file.now) (new_flag (contents file.now)) 0 e) × (result < 256) }
{
    if field::events(file) < e {
        return 0;
    }
    if field::is_flagged(file, e, 2) {
        return 0;
    }
    field::event_byte(file, e, 3)
}

// The record of event e, whose first link is given.
pub fn record(file: &[u8], e: usize, first: usize) -> [u8; 8]
    requires { Source file.now × NewEvent (contents file.now) e × (first < 256) × (first ≡ chained (links_up_to (chip file.now) e) (links_before (chip file.now) (512 * e))) }
    ensures { result ≡ event_record (chip file.now) e }
{
    [
        after(file, e) as u8,
        kept_or(file, e, 1, 3) as u8,
        new_mode(file, e) as u8,
        new_flag(file, e) as u8,
        kept_or(file, e, 4, 0) as u8,
        kept_or(file, e, 5, 0) as u8,
        kept_or(file, e, 6, 0) as u8,
        first as u8,
    ]
}
