// Where the events of each thread stand in the line of all threads, and how many lines a page has.

ghost use Rattle.std.specs.Prelude.{◌≡◌, ◌≤◌};
ghost use Rattle.layout.specs.Layout.{threads};
ghost use Rattle.recording.specs.Causes.{refusal};
ghost use Rattle.printout.specs.Page.{longest, thread_lists};
ghost use Rattle.printout.specs.Table.{Starts};

use reading::thread;

// A page has as many blocks side by side as a file has threads.
pub const BLOCKS: usize = 4;

// The starts of all threads, and the end.
pub const STARTS: usize = BLOCKS + 1;

// Where the events of thread t begin in the line of all threads, at place t; at the last place, where all end.
pub fn starts(file: &[u8]) -> [u8; STARTS]
    requires { refusal file.now ≡ 0 }
    ensures { Starts file.now result threads }
{
    let mut r = [0u8; STARTS];
    let mut n = 0;
    for t in 0..BLOCKS {
        n += thread::length_of(file, t);
        r[t + 1] = n as u8;
    }
    r
}

// The number of lines: as many as the longest thread has events, at most 18.
pub fn longest(file: &[u8]) -> usize
    requires { refusal file.now ≡ 0 }
    ensures { (result ≡ longest (thread_lists file.now threads)) × (result ≤ 18) }
{
    let mut r = 0;
    for t in 0..BLOCKS {
        r = r.max(thread::length_of(file, t));
    }
    r
}
