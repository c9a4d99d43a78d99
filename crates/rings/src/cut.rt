// The break of document 002, Definition 2.8: the change of each double-link in turn, where the ring is accepted.
ghost use Rattle.std.specs.Prelude.{◌≡◌};
ghost use Rattle.table.specs.Inner.{WithinCapacity};
ghost use Rattle.table.specs.Replies.{reply};
ghost use Rattle.rings.specs.Rings.{links_of, cut_along, ring_refusal, ring_leaves};
ghost use Rattle.rings.specs.Inner.{Listed};

use crate::rules::judge_ring;
use table::refusals::Refusal;
use table::{Dimension, store};

pub fn cut_along(table: &mut [u16], ring: &[u16])
    requires { Listed table.old ring.now }
    ensures { table.new ≡ cut_along (links_of ring.now) table.old }
{
    let (links, _) = ring.as_chunks::<2>();
    for &[first, second] in links {
        store::swap(table, Dimension::Edge, first, second);
    }
}

// Cuts along the ring where it is accepted. Never inlined: the code of rings, and its frame, stay out of the loop over
// a tape's commands.
#[inline(never)]
#[tactic(auto, unfolding(crate::specs::Rings::ring_leaves, table::specs::Commands::leaves))]
pub fn cut_ring(table: &mut [u16], ring: &[u16]) -> Result<(), Refusal>
    requires { WithinCapacity table.old }
    ensures value { reply result ≡ ring_refusal table.old ring.now }
    ensures table { table.new ≡ ring_leaves table.old ring.now }
{
    judge_ring(table, ring)?;
    cut_along(table, ring);
    Ok(())
}
