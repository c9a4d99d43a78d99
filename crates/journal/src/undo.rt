// Going back: entry by entry from the latest, each undone by its opposite command.
ghost use Rattle.std.specs.Prelude.{◌≡◌, ◌-◌};
ghost use Rattle.table.specs.Runs.{rule_leaves};
ghost use Rattle.table.specs.Replies.{reply};
ghost use Rattle.tape.specs.Runs.{told_of};
ghost use Rattle.tape.specs.Replies.{run_reply};
ghost use Rattle.journal.specs.Entries.{entry_at};
ghost use Rattle.journal.specs.Undoing.{undo_refusal, undo_rule, undoing};
ghost use Rattle.journal.specs.Inner.{Undoable, EntryThere};

use crate::entries;
use table::changes;
use table::refusals::Refusal;
use tape::Stopped;

// Undoes entry n, or answers 17, undo unfit: where it records no change, or where the opposite command is refused.
#[tactic(auto, using(table::proofs::Replying::number_positive), unfolding(crate::proofs::Undoings::definitions))]
fn undo_entry(table: &mut [u16], journal: &[u16], n: u32) -> Result<(), Refusal>
    requires { EntryThere table.old journal.now n }
    ensures value { reply result ≡ undo_refusal table.old (entry_at journal.now n) }
    ensures table { table.new ≡ rule_leaves undo_rule table.old (entry_at journal.now n) }
{
    let change = entries::change_at(journal, n).ok_or(Refusal::UndoUnfit)?;
    changes::perform(table, change.opposite()).map_err(|_| Refusal::UndoUnfit)
}

// Undoes entries from the last of `used` down to number `to`. Answers how many were undone: all, or those before the
// one that stopped it. Not on a `JournaledTable`: that lends the journal to be written, and here it is lent for
// reading.
pub fn undo_back(table: &mut [u16], journal: &[u16], used: u32, to: u32) -> Result<u32, Stopped>
    requires { Undoable table.old journal.now used to }
    ensures value { run_reply result ≡ told_of (undoing table.old journal.now to (used - to)) }
    ensures table { table.new ≡
        (undoing table.old journal.now to (used - to)).state }
{
    for n in (to..used).rev() {
        undo_entry(table, journal, n).map_err(|refusal| Stopped {
            refusal,
            accepted: used - 1 - n,
        })?;
    }
    Ok(used - to)
}
