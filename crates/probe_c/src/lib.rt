// The probe's library for C, as libprobe.a and include/probe.h offer it: each export is the call of the crate probe with the same name, and
// has its clauses.

#![tactic(auto)]

ghost use Rattle.std.specs.Prelude.{◌≡◌};
ghost use Rattle.layout.specs.Layout.{source, chip};
ghost use Rattle.recording.specs.Causes.{refusal};
ghost use Rattle.recording.specs.Load.{cause_for};
ghost use Rattle.models.specs.Rules.{IMM, ARMv8, TSO};
ghost use Rattle.imm.specs.Judged as imm;
ghost use Rattle.armv8.specs.Judged as armv8;
ghost use Rattle.tso.specs.Judged as tso;
ghost use Rattle.translation.specs.Translation.{translation};
ghost use Rattle.printout.specs.Page.{page};
ghost use Rattle.probe.specs.Calls.{coded, Stored, Reports, Printed, Why};

// Loads a file: 0 where it loads, and else the number of the first cause of refusal that applies, 1 to 10 or 13.
#[unsafe(no_mangle)]
pub extern "C" fn probe_load(file: &[u8]) -> u64
    ensures { result ≡ coded (refusal file.now) 0 0 }
{
    probe::probe_load(file)
}

// The IMM verdict on a source file; the events that are shown of it, at most 64, fill the output's start. Refused with a number, 1 to 13,
// the output stays as it was.
#[unsafe(no_mangle)]
pub extern "C" fn probe_imm(file: &[u8], out: &mut [u8]) -> u64
    ensures { Reports source IMM imm.Judged file.now out.old result out.new }
{
    probe::probe_imm(file, out)
}

// The ARMv8 verdict on a chip file; the events that are shown of it, at most 64, fill the output's start. Refused with a number, 1 to 13,
// the output stays as it was.
#[unsafe(no_mangle)]
pub extern "C" fn probe_armv8(file: &[u8], out: &mut [u8]) -> u64
    ensures { Reports chip ARMv8 armv8.Judged file.now out.old result out.new }
{
    probe::probe_armv8(file, out)
}

// The x86-TSO verdict on a source file; the events that are shown of it, at most 64, fill the output's start. Refused with a number, 1 to 13,
// the output stays as it was.
#[unsafe(no_mangle)]
pub extern "C" fn probe_tso(file: &[u8], out: &mut [u8]) -> u64
    ensures { Reports source TSO tso.Judged file.now out.old result out.new }
{
    probe::probe_tso(file, out)
}

// Writes the translation of a source file, at most 1320 bytes, to the start of the output. Refused with a number, 1 to 13, the output
// stays as it was.
#[unsafe(no_mangle)]
pub extern "C" fn probe_translate(file: &[u8], out: &mut [u8]) -> u64
    ensures { Stored (cause_for source file.now) 0 (translation file.now) out.old result out.new }
{
    probe::probe_translate(file, out)
}

// Writes the page of a file, on which the events of the ring have a star, at most 1458 bytes, to the start of the output. The ring is any
// list of numbers: one that no event has, and one that comes again, do nothing. Refused with a number, 1 to 10, 13 or 12, the output stays as
// it was.
#[unsafe(no_mangle)]
pub extern "C" fn probe_page(file: &[u8], ring: &[u8], out: &mut [u8]) -> u64
    ensures { Stored (refusal file.now) 0 (page file.now ring.now) out.old result out.new }
{
    probe::probe_page(file, ring, out)
}

// Writes the lines that the judge prints of a file, at most 960 bytes, to the start of the output. Refused with 12 where the output is
// shorter than the lines, and then it stays as it was.
#[unsafe(no_mangle)]
pub extern "C" fn probe_judge(file: &[u8], out: &mut [u8]) -> u64
    ensures { Printed file.now out.old result out.new }
{
    probe::probe_judge(file, out)
}

// The clause behind each step of the ring that the verdict of a model shows, 1 IMM, 2 ARMv8, 3 x86-TSO: at most 192 bytes. Refused with a
// number, 1 to 13, the output stays as it was.
#[unsafe(no_mangle)]
pub extern "C" fn probe_why(file: &[u8], model: u64, out: &mut [u8]) -> u64
    ensures { Why model file.now out.old result out.new }
{
    probe::probe_why(file, model, out)
}
