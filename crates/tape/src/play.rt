// The player: command by command, each read whole from what the one before it left of the tape.
ghost use Rattle.std.specs.Prelude.{◌≡◌, ◌*◌, ◌≤◌, length, IfOk};
ghost use Rattle.table.specs.Limits.{max_tape};
ghost use Rattle.table.specs.Replies.{reply};
ghost use Rattle.tape.specs.Tapes.{size_of, command_of};
ghost use Rattle.tape.specs.Runs.{tape_run, run_of, told_of, first_refusal, first_leaves};
ghost use Rattle.tape.specs.Inner.{Playable, meaning};
ghost use Rattle.tape.specs.Replies.{run_reply};

use crate::machine::{BareTable, Machine};
use crate::{Instruction, Stopped, decode, step};
use table::refusals::Refusal;

// The first command of a tape, read and carried out. Answers it, and how many bytes it has.
#[inline(always)]
#[tactic(auto, using(table::proofs::Replying::number_positive), unfolding(crate::proofs::Playing::definitions))]
pub fn play_first<M: Machine>(machine: &mut M, tape: &[u8]) -> Result<(Instruction, usize), Refusal>
    ensures value { reply result ≡ first_refusal M.rule (M.state machine.old) tape.now }
    ensures first { IfOk result (λ a. (meaning tape.now a.0 ≡ command_of tape.now) × (a.1 ≡ size_of tape.now)) }
    ensures state { M.state machine.new ≡ first_leaves M.rule (M.state machine.old) tape.now }
    ensures names { M.names machine.new ≡ M.names machine.old }
{
    let (instruction, size) = decode::read(tape)?;
    step::take_step(machine, tape, instruction)?;
    Ok((instruction, size))
}

// Answers how many commands were accepted: all, or those before the one that stopped it. The loop is written out:
// commands differ in size, so no range and no chunks of the tape follow them, and an iterator would have to give out
// the rest of the tape besides, where a ring's darts stand. The tape's length is a clause, since a tape is a lent
// slice: a struct that keeps the fact would be made at every call.
#[inline(always)]
pub fn play<M: Machine>(machine: &mut M, tape: &[u8]) -> Result<u32, Stopped>
    requires { length tape.now ≤ max_tape }
    ensures value { run_reply result ≡ told_of (tape_run M.rule (M.state machine.old) tape.now) }
    ensures state { M.state machine.new ≡ (tape_run M.rule (M.state machine.old) tape.now).state }
    ensures names { M.names machine.new ≡ M.names machine.old }
{
    let mut rest = tape;
    let mut accepted = 0;
    while !rest.is_empty() {
        let (_, size) = play_first(machine, rest).map_err(|refusal| Stopped { refusal, accepted })?;
        rest = &rest[size..];
        accepted += 1;
    }
    Ok(accepted)
}

// On a table by itself.
pub fn play_table(table: &mut [u16], tape: &[u8]) -> Result<u32, Stopped>
    requires { Playable table.old tape.now }
    ensures value { run_reply result ≡ told_of (run_of table.old tape.now) }
    ensures table { table.new ≡ (run_of table.old tape.now).state }
{
    play(&mut BareTable { table }, tape)
}
