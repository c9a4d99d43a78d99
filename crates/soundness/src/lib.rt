// What a caller's table and tape must pass before all else: their sizes, and that the table is sound. Every family of
// public calls begins here.

#![tactic(auto)]

ghost use Rattle.std.specs.Prelude.{◌≡◌, true};
ghost use Rattle.table.specs.Replies.{reply};
ghost use Rattle.soundness.specs.Soundness.{size_fits, is_sound, table_refusal, tape_refusal};

use table::hypermap_test::holds_hypermap;
use table::limits::{MAX_TAPE, MAX_WORDS, WORDS_PER_DART};
use table::refusals::Refusal;

#[tactic(auto, unfolding(crate::specs::Soundness::size_fits))]
fn size_fits(table: &[u16]) -> bool
    ensures { result ≡ size_fits table.now }
{
    (table.len() % WORDS_PER_DART == 0) & (table.len() <= MAX_WORDS)
}

#[tactic(auto, using(crate::proofs::Passing::size_room), unfolding(crate::specs::Soundness::is_sound))]
fn is_sound(table: &[u16]) -> bool
    requires { size_fits table.now ≡ true }
    ensures { result ≡ is_sound table.now }
{
    holds_hypermap(table)
}

// 1 for a wrong size, 2 for a table that is not sound. Never inlined: a table is judged once a call, and out of line
// the loop is compiled once and takes 0.86 of the time (docs/DECISIONS.md, "Hints on inlining").
#[tactic(auto, unfolding(crate::specs::Soundness::table_refusal, table::proofs::Stages::definitions))]
#[inline(never)]
pub fn judge_table(table: &[u16]) -> Result<(), Refusal>
    ensures { reply result ≡ table_refusal table.now }
{
    if !size_fits(table) {
        return Err(Refusal::WrongSize);
    }
    if !is_sound(table) {
        return Err(Refusal::BentTable);
    }
    Ok(())
}

// 1 for a tape that is too long.
#[tactic(auto, unfolding(crate::specs::Soundness::tape_refusal, table::proofs::Stages::definitions))]
pub fn judge_tape(tape: &[u8]) -> Result<(), Refusal>
    ensures { reply result ≡ tape_refusal tape.now }
{
    if tape.len() <= MAX_TAPE {
        Ok(())
    } else {
        Err(Refusal::WrongSize)
    }
}
