// The needs of a tape: each command is read whole and counted.
ghost use Rattle.std.specs.Prelude.{◌≡◌, ◌+◌, ◌*◌, ◌-◌, ◌≤◌, length};
ghost use Rattle.table.specs.Limits.{max_tape};
ghost use Rattle.table.specs.Inner.{command_for};
ghost use Rattle.tape.specs.Steps.{changes, reports, cuts_ring};
ghost use Rattle.tape.specs.Tapes.{numbers_from, contents_of};
ghost use Rattle.tape.specs.Inner.{meaning};
ghost use Rattle.needs.specs.Amounts.{needed_by};
ghost use Rattle.needs.specs.Replies.{needs_in};
ghost use Rattle.needs.specs.Inner.{added, one_more, Countable};

use crate::{Amounts, Tally, named};
use table::Change;
use table::limits::WORDS_PER_CHANGE;
use table::refusals::Refusal;
use tape::{Instruction, decode};

// ONE MORE COMMAND

impl Tally {
    // Counts a command that names numbers up to `greatest` and makes as many changes as `changes` says. Its part in the
    // peak is counted by the caller.
    #[tactic(auto, using(crate::proofs::Greatest::max_larger))]
    fn one_more(self, greatest: u32, changes: u32) -> Tally
        requires { Countable self × (changes ≤ 255) }
        ensures { result ≡ one_more self greatest changes }
    {
        Tally {
            capacity: self.capacity.max(greatest),
            commands: self.commands + 1,
            changes: self.changes + changes,
            ..self
        }
    }

    // A put at the peak of puts less take-outs makes a new one, and else comes nearer to it. The difference may be
    // negative, but how far it lies below its peak is not.
    #[tactic(auto, using(crate::proofs::Tallies::adding), unfolding(crate::specs::Amounts::greatest))]
    fn add_change(self, change: Change) -> Tally
        requires { Countable self }
        ensures { result ≡ added self (changes (command_for change)) }
    {
        // A match: each variant has operands of its own, and only puts and take-outs move the peak.
        match change {
            Change::Put(x) => {
                let tally = self.one_more(x, 1);
                Tally {
                    peak: self.peak + u32::from(self.below == 0),
                    below: self.below.saturating_sub(1),
                    ..tally
                }
            }
            Change::TakeOut(x) => {
                let tally = self.one_more(x, 1);
                Tally {
                    below: self.below + 1,
                    ..tally
                }
            }
            Change::EdgeJoin(a, b)
            | Change::EdgeCut(a, b)
            | Change::VertexJoin(a, b)
            | Change::VertexCut(a, b) => self.one_more(a.max(b), 1),
        }
    }

    #[tactic(auto, unfolding(crate::specs::Amounts::greatest))]
    fn add_report(self) -> Tally
        requires { Countable self }
        ensures { result ≡ added self reports }
    {
        self.one_more(0, 0)
    }

    // A ring of n double-links makes a change for each. Not marked cold: then the compiler calls it for each ring, and
    // a tape of empty rings takes 3.5 times as long.
    #[tactic(auto, using(crate::proofs::TapeRings::links_numbered))]
    fn add_ring(self, tape: &[u8], n: u8) -> Tally
        requires { Countable self }
        ensures value { result ≡ added self (cuts_ring (numbers_from (2 * n) 2 tape.now)) }
        ensures few { result.changes ≤ self.changes + 255 }
    {
        let greatest = named::greatest_number(tape, 2 * usize::from(n));
        self.one_more(greatest.into(), n.into())
    }

    fn add(self, tape: &[u8], instruction: Instruction) -> Tally
        requires { Countable self }
        ensures value { result ≡ added self (meaning tape.now instruction) }
        ensures few { result.changes ≤ self.changes + 255 }
    {
        // A match: the three kinds count different things, and what to count is no value that a caller could hand in.
        match instruction {
            Instruction::Change(change) => self.add_change(change),
            Instruction::Report => self.add_report(),
            Instruction::RingCut(n) => self.add_ring(tape, n),
        }
    }
}

// THE WHOLE TAPE. The loop is written out, as in `tape::play`: commands differ in size, and the rest of the tape is
// needed beside each, for a ring's darts.

#[tactic(auto, using(crate::proofs::Tallies::counting))]
pub fn needs_of(tape: &[u8]) -> Result<Amounts, Refusal>
    requires { length tape.now ≤ max_tape }
    ensures { needs_in result ≡ needed_by (contents_of tape.now) }
{
    let mut rest = tape;
    let mut tally = Tally::default();
    while !rest.is_empty() {
        let (instruction, size) = decode::read(rest)?;
        tally = tally.add(rest, instruction);
        rest = &rest[size..];
    }
    Ok(Amounts {
        capacity: tally.capacity,
        commands: tally.commands,
        peak: tally.peak,
        words: WORDS_PER_CHANGE * tally.changes,
    })
}
