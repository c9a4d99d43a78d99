// The head of a journal: whether it fits the lent words, and its checkpoints.
ghost use Rattle.std.specs.Prelude.{◌≡◌};
ghost use Rattle.table.specs.Commands.{leaves};
ghost use Rattle.table.specs.Replies.{reply};
ghost use Rattle.journal.specs.Heads.{checkpoint_fits, head_fits, head_refusal, set_refusal, with_checkpoint};
ghost use Rattle.journal.specs.Heads.{cut_back};
ghost use Rattle.journal.specs.Inner.{IsRoom, CheckpointRead};

use crate::{Head, to_usize};
use table::limits::{CHECKPOINTS, MAX_ENTRIES, UNSET, WORDS_PER_ENTRY};
use table::refusals::Refusal;

// How many entries there is room for: by the words, and by the limit.
#[tactic(auto, using(crate::proofs::Room::room_least))]
pub fn room_in(journal: &[u16]) -> u32
    ensures { IsRoom journal.now result }
{
    // `as`: it fits, and `try_from` would add a branch that panics.
    (journal.len() / WORDS_PER_ENTRY).min(MAX_ENTRIES) as u32
}

// Whether a checkpoint is not set, or not past the length.
#[tactic(auto, unfolding(crate::specs::Heads::checkpoint_fits))]
fn checkpoint_fits(length: u32, checkpoint: u32) -> bool
    ensures { result ≡ checkpoint_fits length checkpoint }
{
    (checkpoint == UNSET) | (checkpoint <= length)
}

impl Head {
    fn fits(&self, journal: &[u16]) -> bool
        ensures { result ≡ head_fits journal.now self.now }
    {
        let length = self.length;
        (length <= room_in(journal))
            & self
                .checkpoints
                .iter()
                .all(|checkpoint| checkpoint_fits(length, *checkpoint))
    }

    // 17, undo unfit, for a head that does not fit the journal.
    #[tactic(auto, unfolding(crate::specs::Heads::head_refusal, table::specs::Refusals::unless))]
    pub fn judge(&self, journal: &[u16]) -> Result<(), Refusal>
        ensures { reply result ≡ head_refusal journal.now self.now }
    {
        if !self.fits(journal) {
            return Err(Refusal::UndoUnfit);
        }
        Ok(())
    }

    // Checkpoint c; none where it is not set, or above 15.
    pub fn checkpoint(&self, c: u32) -> Option<u32>
        ensures { CheckpointRead self.now c result }
    {
        self.checkpoints
            .get(to_usize(c))
            .copied()
            .filter(|length| *length != UNSET)
    }

    // Checkpoint c is set at the length, or moved there.
    #[tactic(auto, unfolding(crate::proofs::CheckpointReads::definitions))]
    pub fn set_checkpoint(&mut self, c: u32) -> Result<(), Refusal>
        ensures value { reply result ≡ set_refusal c }
        ensures head { self.new ≡
            leaves (set_refusal c) (with_checkpoint c self.old) self.old }
    {
        let at = to_usize(c);
        if CHECKPOINTS <= at {
            return Err(Refusal::NoMark);
        }
        self.checkpoints[at] = self.length;
        Ok(())
    }

    // Cut back to n entries: checkpoints past them are dropped.
    pub fn cut_back(&mut self, n: u32)
        ensures { self.new ≡ cut_back n self.old }
    {
        for checkpoint in &mut self.checkpoints {
            if n < *checkpoint {
                *checkpoint = UNSET;
            }
        }
        self.length = n;
    }
}
