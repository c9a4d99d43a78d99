// Lines of text: the report's, an accepted command's, a refusal's.
// Their contracts are alike but for the line: they name what the writer holds before and after, as the library does.
ghost use Rattle.std.specs.Prelude.{◌≡◌, OnOk};
ghost use Rattle.std.specs.Io.KnownBytes.{Appends};
ghost use Rattle.table.specs.Replies.{number};
ghost use Rattle.table.specs.Layout.{hypermap_of};
ghost use Rattle.parts.specs.Counts.{counts_of};
ghost use Rattle.plan.specs.Lines.{report_line, refused_line};
ghost use Rattle.plan.specs.Inner.{instruction_line};

use parts::{Counts, count};
use std::io::{self, Write};
use table::refusals::Refusal;
use tape::Instruction;
use tape::machine::BareTable;

// Never inlined: compiled into the loop over a tape's commands, the count is slower.
#[inline(never)]
fn counts(machine: &BareTable) -> Counts
    ensures { result ≡ counts_of (hypermap_of machine.now.table.now) }
{
    count::counts(machine.table)
}

// The numbers in document 01's order. `Counts` has no `Display`: the line is of this program alone, and `Counts` is of
// another crate, so that an impl here would need a type around it.
fn write_report<W: Write>(lines: &mut W, counts: Counts) -> io::Result<()>
    ensures { OnOk result (Appends (W.contents lines.old) (W.contents lines.new) (report_line counts)) }
{
    let Counts {
        darts,
        edges,
        vertices,
        faces,
        components,
        characteristic,
        genus,
        lifts,
    } = counts;
    writeln!(
        lines,
        "{darts} {edges} {vertices} {faces} {components} {characteristic} {genus} {lifts}"
    )
}

// The line of an accepted command, whose change the table has.
pub fn write_accepted<W: Write>(
    lines: &mut W,
    machine: &BareTable,
    instruction: Instruction,
) -> io::Result<()>
    ensures { OnOk result (Appends (W.contents lines.old) (W.contents lines.new)
        (instruction_line machine.now.table.now instruction)) }
{
    // A match: only a report has a line of its own. The other line is written as bytes: `writeln!` takes more
    // instructions.
    match instruction {
        Instruction::Report => write_report(lines, counts(machine)),
        Instruction::Change(_) | Instruction::RingCut(_) => lines.write_all(b"ok\n"),
    }
}

// The last line of a run that is refused.
#[tactic(auto, using(crate::proofs::Numerals::decimal_formatted), unfolding(crate::specs::Lines::refused_line))]
pub fn write_refused<W: Write>(lines: &mut W, refusal: Refusal) -> io::Result<()>
    ensures { OnOk result (Appends (W.contents lines.old) (W.contents lines.new)
        (refused_line (number refusal))) }
{
    writeln!(lines, "refused {refusal}")
}
