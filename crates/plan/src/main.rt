// Plays standard input on an empty table of 4,096 darts and writes a line for each command: `ok`, the report of 07, or
// `refused` and the number, and then it ends. Document 01, "Plans to check". What is written is proved of any writer
// (`write_lines`); only reading and the choice of the writer are left here.

#![tactic(auto)]

ghost use Rattle.std.specs.Prelude.{◌≡◌, ◌≤◌, length, IfOk, OnOk};
ghost use Rattle.std.specs.Io.KnownBytes.{Appends};
ghost use Rattle.tape.specs.Runs.{run_of};
ghost use Rattle.plan.specs.Lines.{lines_of, tape_lines};
ghost use Rattle.plan.specs.Buffers.{written};

use arrayvec::ArrayVec;
use buffered::Buffered;
use std::io::{self, Read, Write};
use table::limits::{MAX_TAPE, MAX_WORDS};
use table::refusals::Refusal;
use tape::machine::BareTable;
use tape::play;

mod buffered;
mod text;

// One byte more than a tape may have, so that a longer one shows.
const READ_BYTES: usize = MAX_TAPE + 1;

// Lines gather in so many bytes before they are written.
const BUFFER_BYTES: usize = 8192;

// A line for each command, up to the first that is refused. The machine keeps its table within the capacity, so the
// table is not judged again for each command.
fn write_run<W: Write>(lines: &mut W, machine: &mut BareTable, tape: &[u8]) -> io::Result<()>
    ensures lines { OnOk result (Appends (W.contents lines.old) (W.contents lines.new)
        (lines_of machine.old.table.now tape.now)) }
    ensures table { OnOk result (machine.new.table.now ≡ (run_of machine.old.table.now tape.now).state) }
    ensures name { OnOk result (machine.new.table.ghost_name ≡ machine.old.table.ghost_name) }
{
    let mut rest = tape;
    // By hand: where a command ends is known when it is read.
    while !rest.is_empty() {
        match play::play_first(machine, rest) {
            Ok((instruction, size)) => {
                text::write_accepted(lines, machine, instruction)?;
                rest = &rest[size..];
            }
            Err(refusal) => return text::write_refused(lines, refusal),
        }
    }
    Ok(())
}

// The lines of a whole tape, played on an empty table.
fn write_tape<W: Write>(lines: &mut W, tape: &[u8]) -> io::Result<()>
    ensures { OnOk result (Appends (W.contents lines.old) (W.contents lines.new)
        (tape_lines tape.now)) }
{
    if tape.len() > MAX_TAPE {
        return text::write_refused(lines, Refusal::WrongSize);
    }
    let mut table = [0u16; MAX_WORDS]; // fixed memory: no heap
    write_run(lines, &mut BareTable { table: &mut table }, tape)
}

// The same through a buffer, in which nothing stays.
fn write_lines<W: Write, const N: usize>(lines: &mut Buffered<W, N>, tape: &[u8]) -> io::Result<()>
    ensures { OnOk result (Appends (written W.contents lines.old) (W.contents lines.new.inner)
        (tape_lines tape.now)) }
{
    write_tape(lines, tape)?;
    lines.finish()
}

fn main(rt: HostRuntime) -> io::Result<()> {
    let mut tape = ArrayVec::<u8, READ_BYTES>::new();
    // `as`: the library has no `From` from `usize` to `u64`.
    io::copy(&mut rt.stdin().take(READ_BYTES as u64), &mut tape)?;
    let mut lines = Buffered::<_, BUFFER_BYTES>::new(io::writer(&rt));
    write_lines(&mut lines, &tape)
}
