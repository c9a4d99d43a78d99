// Tapes of commands: the opcodes, the decoder, one step, the player. Inner functions: they may require a table
// within the capacity.

#![tactic(auto)]

ghost use Rattle.std.specs.Prelude.{◌≡◌};

pub mod decode;
pub mod machine;
pub mod opcode;
pub mod play;
pub mod step;

use table::Change;
use table::refusals::Refusal;

// A command of a tape. A ring has its number of double-links here, and its darts stay on the tape: an instruction that
// held a part of the tape would give itself, and every type that holds one, a lifetime.
#[derive(Clone, Copy)]
pub enum Instruction {
    Change(Change),
    Report,
    RingCut(u8),
}

// What stopped a run, and how many commands it had accepted.
#[derive(Clone, Copy, Debug, PartialEq, Eq)]
pub struct Stopped {
    pub refusal: Refusal,
    pub accepted: u32,
}

// A run that is refused before its first command.
impl From<Refusal> for Stopped {
    ghost from_gives = { λ refusal stopped. (stopped.refusal ≡ refusal) × (stopped.accepted ≡ 0) };

    fn from(refusal: Refusal) -> Stopped {
        Stopped {
            refusal,
            accepted: 0,
        }
    }
}

// What C, which has no `Result`, is told of a run: 0 or the refusal that stopped it, and how many commands were
// accepted.
#[repr(C)]
#[derive(Clone, Copy)]
pub struct Run {
    pub number: u8,
    pub accepted: u32,
}

impl From<Result<u32, Stopped>> for Run {
    ghost use Rattle.tape.specs.Replies.{run_reply};

    ghost from_gives = { λ answer run. run ≡ run_reply answer };

    fn from(answer: Result<u32, Stopped>) -> Run {
        match answer {
            Ok(accepted) => Run {
                number: 0,
                accepted,
            },
            Err(stopped) => Run {
                number: stopped.refusal.into(),
                accepted: stopped.accepted,
            },
        }
    }
}
