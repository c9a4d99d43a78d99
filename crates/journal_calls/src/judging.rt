// What a call with a journal judges first: the table by 1, wrong size, and 2, bent table, then the head by
// 17, undo unfit.
ghost use Rattle.std.specs.Prelude.{◌≡◌};
ghost use Rattle.table.specs.Replies.{reply};
ghost use Rattle.journal_calls.specs.Calls.{state_of, state_refusal};

use journal::Head;
use soundness::judge_table;
use table::refusals::Refusal;

#[tactic(auto, unfolding(crate::specs::Calls::state_refusal, table::specs::Refusals::or_else))]
pub fn judge_state(table: &[u16], journal: &[u16], head: &Head) -> Result<(), Refusal>
    ensures { reply result ≡ state_refusal (state_of table.now journal.now head.now) }
{
    judge_table(table)?;
    head.judge(journal)
}
