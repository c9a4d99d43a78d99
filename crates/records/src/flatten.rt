// The words of a ring that is lent as records. Of a ring that is too long no word is copied: `ring_cut` answers an
// empty list as it answers one that is too long.
ghost use Rattle.std.specs.Prelude.{◌≡◌, ◌≤◌, flat_map, length, take};
ghost use Rattle.table.specs.Limits.{max_double_links};
ghost use Rattle.records.specs.Records.{fitted, words_of};

use crate::DoubleLink;
use arrayvec::ArrayVec;
use table::limits::MAX_DOUBLE_LINKS;

// How many of n double-links are copied: all, or none where they are too many.
#[tactic(auto, unfolding(crate::specs::Records::fitted))]
fn fit(n: usize) -> usize
    ensures value { result ≡ fitted n }
    ensures few { result ≤ max_double_links }
    ensures within { result ≤ n }
{
    if MAX_DOUBLE_LINKS < n { 0 } else { n }
}

// The pairs of the double-links that fit, in place of what the list held. It is lent, since it is fixed memory for the
// longest ring: as an answer it would be copied whole.
#[tactic(auto, using(crate::proofs::Words::copying))]
pub fn copy_pairs(ring: &[DoubleLink], pairs: &mut ArrayVec<[u16; 2], MAX_DOUBLE_LINKS>)
    ensures { flat_map (λ p. p) pairs.new.items ≡ words_of (take (fitted (length ring.now)) ring.now) }
{
    pairs.clear();
    for link in &ring[..fit(ring.len())] {
        pairs.push([link.first, link.second]);
    }
}
