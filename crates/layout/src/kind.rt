// What varies by kind: the kinds that there are, the side of each, and the limits of a side.

ghost use Rattle.std.specs.Prelude.{◌≡◌};
ghost use Rattle.layout.specs.Layout.{kind_known, side_of, by_side, most_events, most_links, most_in_thread};

// The sides, as the answer to whether a recording is a source recording.
pub const SOURCE: bool = true;

pub const CHIP: bool = false;

// Whether there is such a kind.
pub fn known(kind: usize) -> bool
    ensures { result ≡ kind_known kind }
{
    kind == 1 || kind == 2
}

// The side of a kind: whether it is that of source recordings.
pub fn side_of(kind: usize) -> bool
    ensures { result ≡ side_of kind }
{
    kind == 1
}

// The number of this side: a of source, b of chip.
pub fn by_side(a: usize, b: usize, source: bool) -> usize
    ensures { result ≡ by_side a b source }
{
    if source {
        return a;
    }
    b
}

// The most event records of a file of this side.
pub fn most_events(source: bool) -> usize
    ensures { result ≡ most_events source }
{
    by_side(32, 48, source)
}

// The most link records of a file of this side.
pub fn most_links(source: bool) -> usize
    ensures { result ≡ most_links source }
{
    by_side(200, 255, source)
}

// The most events of a thread of a file of this side.
pub fn most_in_thread(source: bool) -> usize
    ensures { result ≡ most_in_thread source }
{
    by_side(12, 18, source)
}
