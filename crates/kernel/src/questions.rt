// The refusal of a question about darts: the table is judged first, and then the darts that are named. `make_change` is
// alike, but has no more in common with these than `judge_table`: a function for both would be no plainer. Nor
// would one function for an array of darts: it would have a loop where two comparisons stand.
ghost use Rattle.std.specs.Prelude.{◌≡◌, [], ◌∷◌};
ghost use Rattle.table.specs.Replies.{reply};
ghost use Rattle.kernel.specs.Calls.{question_refusal};

use soundness::judge_table;
use table::changes;
use table::refusals::Refusal;

pub fn judge_dart_question(table: &[u16], x: u32) -> Result<(), Refusal>
    ensures { reply result ≡ question_refusal table.now (x ∷ []) }
{
    judge_table(table)?;
    changes::judge_dart(table, x)
}

pub fn judge_darts_question(table: &[u16], a: u32, b: u32) -> Result<(), Refusal>
    ensures { reply result ≡ question_refusal table.now (a ∷ b ∷ []) }
{
    judge_table(table)?;
    changes::judge_darts(table, a, b)
}
