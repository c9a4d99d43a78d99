// A table with a journal, which tapes play on as on a table by itself: each accepted change is made, and written into
// the journal. The command's own refusals come first, then 18, journal full.
ghost use Rattle.std.specs.Prelude.{◌≡◌, ℕ, length};
ghost use Rattle.table.specs.Replies.{reply};
ghost use Rattle.rings.specs.Rings.{links_of, cuts_of};
ghost use Rattle.tape.specs.Steps.{cuts_ring};
ghost use Rattle.tape.specs.Runs.{tape_run, told_of};
ghost use Rattle.tape.specs.Replies.{run_reply};
ghost use Rattle.journal.specs.Entries.{with_entries};
ghost use Rattle.journal.specs.Heads.{room_refusal};
ghost use Rattle.journal.specs.Journaling.{Recorded, journaled_refusal, journal_rule};
ghost use Rattle.journal.specs.Inner.{recorded, WithinJournal, RoomForCuts, Runnable};

use crate::{entries, heads, to_usize};
use rings::{cut, rules};
use table::refusals::Refusal;
use table::{Change, changes};
use tape::machine::Machine;
use tape::opcode::Opcode;
use tape::{Stopped, play};

// A table within the capacity, its journal, and how many entries of the journal are used: these lie in its words.
#[derive(Drop)]
pub struct JournaledTable<'a> {
    pub table: &'a mut [u16],
    pub journal: &'a mut [u16],
    pub used: &'a mut u32,
    ghost within: { WithinJournal table.now journal.now used.now },
}

// The entries of a ring's cuts. Journal and count are the machine's, which holds them together; here only the journal
// is written.
fn write_cuts(journal: &mut [u16], used: u32, ring: &[u16])
    requires { RoomForCuts journal.old used (length ring.now) }
    ensures { journal.new ≡
        with_entries journal.old used (cuts_of (links_of ring.now)) }
{
    let (links, _) = ring.as_chunks::<2>();
    let mut n = used;
    // The number is counted by hand: with the links zipped with `used..` a journaled run takes 1.17 of the time.
    for &[first, second] in links {
        entries::write(journal, n, Opcode::EdgeCut, first, second);
        n += 1;
    }
}

impl JournaledTable<'_> {
    // 18, journal full, where n entries more do not fit.
    #[inline(always)]
    #[tactic(auto, using(crate::proofs::Additions::rooms))]
    fn judge_room(&self, n: usize) -> Result<(), Refusal>
        ensures { reply result ≡ room_refusal self.now.journal.now self.now.used.now n }
    {
        let left = heads::room_in(self.journal) - *self.used;
        if to_usize(left) < n {
            return Err(Refusal::JournalFull);
        }
        Ok(())
    }

    // The ring's own refusals, then 18, journal full, where the entries of its cuts do not fit.
    #[inline(always)]
    #[tactic(auto, using(crate::proofs::Additions::ring_journaling), unfolding(crate::proofs::Additions::definitions))]
    fn judge_ring(&self, ring: &[u16]) -> Result<(), Refusal>
        ensures { reply result ≡ journaled_refusal
            (recorded self.now.table.now self.now.journal.now self.now.used.now) (cuts_ring ring.now) }
    {
        rules::judge_ring(self.table, ring)?;
        self.judge_room(ring.len() / 2)
    }
}

impl Machine for JournaledTable<'_> {
    ghost State = { Recorded };

    ghost state = { λ m. recorded m.table.now m.journal.now m.used.now };

    ghost rule = { journal_rule };

    ghost Names = { ℕ × ℕ × ℕ };

    ghost names = { λ m. (m.table.ghost_name, m.journal.ghost_name, m.used.ghost_name) };

    ghost use Rattle.journal.specs.Reports.{report_accepted, report_adds_nothing};

    ghost accepts_report = { λ m. report_accepted _ _ _ m.within.fits };

    ghost keeps_report = { λ m. report_adds_nothing _ _ _ };

    #[inline(always)]
    #[tactic(auto, using(table::proofs::Replying::number_positive), unfolding(crate::proofs::Additions::definitions))]
    fn perform(&mut self, change: Change) -> Result<(), Refusal> {
        let room = self.judge_room(1);
        changes::perform_with(self.table, change, room)?;
        entries::write_change(self.journal, *self.used, change);
        *self.used += 1;
        Ok(())
    }

    // All of its cuts have entries, or nothing changes.
    #[inline(always)]
    #[tactic(auto, using(crate::proofs::Additions::ring_journaling), unfolding(crate::proofs::Additions::definitions))]
    fn cut_ring(&mut self, ring: &[u16]) -> Result<(), Refusal> {
        self.judge_ring(ring)?;
        cut::cut_along(self.table, ring);
        write_cuts(self.journal, *self.used, ring);
        // `as`: it fits, and `try_from` would add a branch that panics.
        *self.used += (ring.len() / 2) as u32;
        Ok(())
    }
}

// A tape whose accepted changes are written into the journal. What the caller lends apart, the machine holds together.
// Never inlined: the loop of a run with a journal is compiled once, by itself (docs/DECISIONS.md, "Hints on inlining").
#[inline(never)]
pub fn run_tape(
    table: &mut [u16],
    journal: &mut [u16],
    used: &mut u32,
    tape: &[u8],
) -> Result<u32, Stopped>
    requires { Runnable table.old journal.old used.old tape.now }
    ensures value { run_reply result ≡
        told_of (tape_run journal_rule (recorded table.old journal.old used.old) tape.now) }
    ensures state { recorded table.new journal.new used.new ≡
        (tape_run journal_rule (recorded table.old journal.old used.old) tape.now).state }
{
    // Counted in a local: at the caller's place the count would be read from memory and written back at every command.
    let mut count = *used;
    let answer = play::play(
        &mut JournaledTable {
            table,
            journal,
            used: &mut count,
        },
        tape,
    );
    *used = count;
    answer
}
