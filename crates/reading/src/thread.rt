// The events of a file thread by thread: how many each has, and all of them in one line.

ghost use Rattle.std.specs.Prelude.{◌≡◌, true, ◌+◌, ◌<◌, length};
ghost use Rattle.layout.specs.Layout.{threads, Sized};
ghost use Rattle.layout.specs.Chains.{thread, threads_sound};
ghost use Rattle.reading.specs.Sets.{Line};

use layout::chain::Cursor;
use layout::{chain, field};
use relation::Events;

// How many events thread t has, from 0.
pub fn length_of(file: &[u8], t: usize) -> usize
    requires { Sized file.now × (t < threads) }
    ensures { result ≡ length (thread file.now t) }
{
    let n = field::events(file);
    chain::count(file, 8, 8, n, Cursor::start(file, 4, 1, t))
}

// Puts the events of thread t behind the line of the first t threads.
pub fn along(file: &[u8], t: usize, line: &mut Events)
    requires { Sized file.now × (threads_sound file.now ≡ true) × (t < threads) × Line file.now t line.old.items }
    ensures { Line file.now (t + 1) line.new.items }
{
    let mut cursor = Cursor::start(file, 4, 1, t);
    while cursor.at != 0 {
        line.push(cursor.at as u8);
        cursor = cursor.moved(file, 8, 8);
    }
}

// The events of all threads, each thread in its order, one thread behind the other.
pub fn line(file: &[u8]) -> Events
    requires { Sized file.now × (threads_sound file.now ≡ true) }
    ensures { Line file.now threads result.items }
{
    let mut line = Events::new();
    for t in 0..4 {
        along(file, t, &mut line);
    }
    line
}
