// Filling an output that a caller lends: bytes go to its start, and later bytes stay. Where it is shorter than the bytes the call is refused
// with 12 before anything is written.

#![tactic(auto)]

ghost use Rattle.std.specs.Prelude.{◌≡◌, ◌+◌, ◌≤◌, length};
ghost use Rattle.output.specs.Output.{placed, Fills};

use refusal::Refusal;

// Puts bytes in place of what stands from a place on.
pub fn put(out: &mut [u8], at: usize, bytes: &[u8])
    requires { at + length bytes.now ≤ length out.old }
    ensures { out.new ≡ placed out.old at bytes.now }
{
    out[at..at + bytes.len()].copy_from_slice(bytes);
}

// Fills the output's start with the bytes, and answers how many. Refused with 12 where it is shorter than they are, and then it stays as it was.
pub fn fill(out: &mut [u8], bytes: &[u8]) -> Result<usize, Refusal>
    ensures { Fills 0 bytes.now out.old result out.new }
{
    if out.len() < bytes.len() {
        return Err(Refusal::NoRoom);
    }
    put(out, 0, bytes);
    Ok(bytes.len())
}
