// Conditions on the words of a list by themselves.
ghost use Rattle.std.specs.Prelude.{◌≡◌};
ghost use Rattle.hypermap.specs.Ring.{pairs_differ};
ghost use Rattle.table.specs.Commands.{presence_refusal};
ghost use Rattle.table.specs.Replies.{reply};
ghost use Rattle.rings.specs.Rings.{is_list};
ghost use Rattle.rings.specs.Inner.{links_in};

use table::limits::MAX_RING;
use table::refusals::Refusal;
use table::words;

#[tactic(auto, unfolding(crate::specs::Rings::is_list))]
pub fn is_list(ring: &[u16]) -> bool
    ensures { result ≡ is_list ring.now }
{
    (0 < ring.len()) & (ring.len() % 2 == 0) & (ring.len() <= MAX_RING)
}

// Refusal 3 for a word off the table, and then 4 for one that is no dart. Of one dart and of two, `judge_dart` and
// `judge_darts` of table judge the same without a loop, since they stand in the loop over a tape's commands.
#[tactic(auto, using(crate::proofs::RingStages::word_stages), unfolding(crate::proofs::RingStages::definitions))]
pub fn judge_words(table: &[u16], ring: &[u16]) -> Result<(), Refusal>
    ensures { reply result ≡ presence_refusal table.now ring.now }
{
    for &x in ring {
        if !words::is_number(table, u32::from(x)) {
            return Err(Refusal::OffTheTable);
        }
    }
    for &x in ring {
        if !words::is_present(table, u32::from(x)) {
            return Err(Refusal::NoTab);
        }
    }
    Ok(())
}

// Whether the two darts of each double-link differ.
#[tactic(auto, using(crate::proofs::Asking::asking))]
pub fn pairs_differ(links: &[[u16; 2]]) -> bool
    ensures { result ≡ pairs_differ (links_in links.now) }
{
    // A loop: the library's `all` was slower (docs/DECISIONS.md, "Passes over pairs").
    for [first, second] in links {
        if first == second {
            return false;
        }
    }
    true
}
