// What a tape plays on: a table by itself, or one with more beside it. The player is written once, for any of them.
ghost use Rattle.std.specs.Prelude.{◌≡◌, ℕ};
ghost use Rattle.table.specs.Inner.{WithinCapacity, command_for};
ghost use Rattle.table.specs.Replies.{reply};
ghost use Rattle.table.specs.Runs.{Rule, rule_leaves};
ghost use Rattle.tape.specs.Steps.{TapeCommand, changes, reports, cuts_ring, step_rule};

use rings::cut;
use table::refusals::Refusal;
use table::{Change, changes as table_changes};

pub trait Machine {
    // Its state as a value, and the rule that says which commands it refuses and what the others change.
    ghost State: { Type 0 };

    ghost state: { Self → State };

    ghost rule: { Rule State TapeCommand };

    // Which words were lent to it: no command exchanges them, so whoever lent them knows what they hold afterwards.
    ghost Names: { Type 0 };

    ghost names: { Self → Names };

    fn perform(&mut self, change: Change) -> Result<(), Refusal>
        ensures value { reply result ≡ rule.refusal (state self.old) (changes (command_for change)) }
        ensures state { state self.new ≡ rule_leaves rule (state self.old) (changes (command_for change)) }
        ensures names { names self.new ≡ names self.old };

    // The ring is lent as a list of words.
    fn cut_ring(&mut self, ring: &[u16]) -> Result<(), Refusal>
        ensures value { reply result ≡ rule.refusal (state self.old) (cuts_ring ring.now) }
        ensures state { state self.new ≡ rule_leaves rule (state self.old) (cuts_ring ring.now) }
        ensures names { names self.new ≡ names self.old };

    // A report is accepted and changes nothing, so the player asks no machine for it.
    ghost accepts_report: { (m : Self) → rule.refusal (state m) reports ≡ 0 };

    ghost keeps_report: { (m : Self) → rule.on (state m) reports ≡ state m };
}

// A table by itself, within the capacity.
#[derive(Drop)]
pub struct BareTable<'a> {
    pub table: &'a mut [u16],
    ghost within: { WithinCapacity table.now },
}

impl Machine for BareTable<'_> {
    ghost use Rattle.std.specs.Prelude.{List, refl};

    ghost State = { List ℕ };

    ghost state = { λ m. m.table.now };

    ghost rule = { step_rule };

    ghost Names = { ℕ };

    ghost names = { λ m. m.table.ghost_name };

    ghost accepts_report = { λ m. refl };

    ghost keeps_report = { λ m. refl };

    #[inline(always)]
    #[tactic(auto, using(crate::proofs::Running::within))]
    fn perform(&mut self, change: Change) -> Result<(), Refusal> {
        table_changes::perform(self.table, change)
    }

    #[inline(always)]
    #[tactic(auto, using(crate::proofs::Running::within), unfolding(rings::specs::Rings::ring_leaves))]
    fn cut_ring(&mut self, ring: &[u16]) -> Result<(), Refusal> {
        cut::cut_ring(self.table, ring)
    }
}
