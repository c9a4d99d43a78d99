// One command of a tape on a machine.
ghost use Rattle.std.specs.Prelude.{◌≡◌, ◌*◌};
ghost use Rattle.table.specs.Replies.{reply};
ghost use Rattle.table.specs.Runs.{rule_leaves};
ghost use Rattle.tape.specs.Tapes.{numbers_from};
ghost use Rattle.tape.specs.Steps.{cuts_ring};
ghost use Rattle.tape.specs.Inner.{meaning};

use crate::machine::Machine;
use crate::{Instruction, decode};
use table::limits::MAX_TAPE_RING;
use table::refusals::Refusal;

// Cuts along a ring of n double-links, whose darts stand after the count on the tape. Inlined into the loop of a run,
// like every function that takes a machine: if the loop passed the machine's address to a call, it would have to read
// the machine's references again at every command.
#[inline(always)]
fn cut_tape_ring<M: Machine>(machine: &mut M, tape: &[u8], n: u8) -> Result<(), Refusal>
    ensures value { reply result ≡
        M.rule.refusal (M.state machine.old) (cuts_ring (numbers_from (2 * n) 2 tape.now)) }
    ensures state { M.state machine.new ≡
        rule_leaves M.rule (M.state machine.old) (cuts_ring (numbers_from (2 * n) 2 tape.now)) }
    ensures names { M.names machine.new ≡ M.names machine.old }
{
    // An `ArrayVec` was tried: where `read_ring` answers it, a journaled run takes 1.3 to 1.4 of the time. Where it is
    // filled out of line, the run takes 0.99, but there are 28 lines more: a loop like `read_numbers`, proved again.
    let mut words = [0u16; MAX_TAPE_RING]; // fixed memory: no heap
    machine.cut_ring(decode::read_ring(tape, n, &mut words))
}

// Carries out one command: a change or a ring on the machine. A report is accepted without asking the machine.
#[inline(always)]
#[tactic(auto, using(crate::proofs::Playing::report_leaves))]
pub fn take_step<M: Machine>(
    machine: &mut M,
    tape: &[u8],
    instruction: Instruction,
) -> Result<(), Refusal>
    ensures value { reply result ≡ M.rule.refusal (M.state machine.old) (meaning tape.now instruction) }
    ensures state { M.state machine.new ≡
        rule_leaves M.rule (M.state machine.old) (meaning tape.now instruction) }
    ensures names { M.names machine.new ≡ M.names machine.old }
{
    // A match: what each kind does to the machine is the machine's, and which kind it is comes off the tape.
    match instruction {
        Instruction::Change(change) => machine.perform(change),
        Instruction::Report => Ok(()),
        Instruction::RingCut(n) => cut_tape_ring(machine, tape, n),
    }
}
