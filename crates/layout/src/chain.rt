// Chains of records: a record's first byte is the number of the next on its chain, and 0 ends it.

ghost use Rattle.std.specs.Prelude.{◌≡◌, true, List, ℕ, ◌+◌, ◌-◌, ◌*◌, ◌≤◌, ◌<◌, length};
ghost use Rattle.layout.specs.Chains.{next_of, start_of, chain, met, all_met, once_each, Linked, Marked, Followed};

// A position on a chain: the number of a record, or 0 at the end. It is handed on from call to call.
#[derive(Clone, Copy)]
pub struct Cursor {
    pub at: usize,
}

impl Cursor {
    // The start of chain j of those whose starts stand at place from and each size bytes on.
    pub fn start(file: &[u8], from: usize, size: usize, j: usize) -> Self
        requires { from + size * j < length file.now }
        ensures { (result.at ≡ start_of file.now from size j) × (result.at < 256) }
    {
        Self {
            at: file[from + size * j] as usize,
        }
    }

    // The next position, where records begin at place from and are size bytes long.
    pub fn moved(self, file: &[u8], from: usize, size: usize) -> Self
        requires { (1 ≤ self.at) × (from + size * (self.at - 1) < length file.now) }
        ensures { (result.at ≡ next_of file.now from size self.at) × (result.at < 256) }
    {
        let x = self.at;
        Self {
            at: file[from + size * (x - 1)] as usize,
        }
    }
}

// Follows one chain and marks what it meets. Answers whether each number was met once and is within the limit.
pub fn follow(
    file: &[u8],
    from: usize,
    size: usize,
    limit: usize,
    start: Cursor,
    marks: &mut [bool],
) -> bool
    requires { Linked file.now 0 0 0 from size limit × (start.at < 256) × (length marks.old ≡ 256) }
    ensures { (l : List ℕ) → Marked l marks.old → Followed limit l (chain limit (next_of file.now from size) start.at) result marks.new }
{
    let mut cursor = start;
    for _ in 0..=limit {
        let x = cursor.at;
        if x == 0 {
            return true;
        }
        if limit < x {
            return false;
        }
        let met_before = marks[x];
        if met_before {
            return false;
        }
        marks[x] = true;
        cursor = cursor.moved(file, from, size);
    }
    true
}

// How many numbers the chain from a start meets.
pub fn count(file: &[u8], from: usize, size: usize, limit: usize, start: Cursor) -> usize
    requires { Linked file.now 0 0 0 from size limit }
    ensures { result ≡ length (chain limit (next_of file.now from size) start.at) }
{
    let mut cursor = start;
    for met in 0..=limit {
        let x = cursor.at;
        if x == 0 {
            return met;
        }
        if limit < x {
            return met + 1;
        }
        cursor = cursor.moved(file, from, size);
    }
    limit + 1
}

// Whether every number from 1 to limit is marked.
pub fn all_marked(marks: &[bool; 256], limit: usize) -> bool
    requires { limit < 256 }
    ensures { (l : List ℕ) → Marked l marks.now → result ≡ all_met limit l }
{
    marks[1..=limit].iter().all(|mark| *mark)
}

// Whether the chains from count starts meet every record once and no number over the limit.
pub fn once_each(
    file: &[u8],
    first: usize,
    step: usize,
    count: usize,
    from: usize,
    size: usize,
    limit: usize,
) -> bool
    requires { Linked file.now first step count from size limit }
    ensures { result ≡ once_each limit (met limit (next_of file.now from size) (start_of file.now first step) count) }
{
    let mut marks = [false; 256];
    for j in 0..count {
        let start = Cursor::start(file, first, step, j);
        if !follow(file, from, size, limit, start, &mut marks) {
            return false;
        }
    }
    all_marked(&marks, limit)
}
