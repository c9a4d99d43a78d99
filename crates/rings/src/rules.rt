// The refusals of a ring in document 01's order, each condition over the whole list before the next.
ghost use Rattle.std.specs.Prelude.{◌≡◌};
ghost use Rattle.table.specs.Layout.{hypermap_of};
ghost use Rattle.table.specs.Inner.{WithinCapacity};
ghost use Rattle.table.specs.Replies.{reply};
ghost use Rattle.rings.specs.Rings.{condition_refusal, ring_refusal};
ghost use Rattle.rings.specs.Inner.{links_in, LinksMarking};

use crate::first_darts::{GOES_ON, STOPS, mark_firsts};
use crate::list;
use crate::path::path_closes;
use crate::together::pairs_together;
use table::limits::MAX_CAPACITY;
use table::refusals::Refusal;
use table::{Orbit, words};

// The conditions on double-links of darts. The edges are marked once for two of them, and judged in their places.
#[tactic(auto, using(crate::proofs::RingStages::condition_stages), unfolding(crate::proofs::RingStages::definitions))]
fn judge_conditions(table: &[u16], links: &[[u16; 2]], marks: &mut [u16]) -> Result<(), Refusal>
    requires { LinksMarking table.now (links_in links.now) marks.old }
    ensures { reply result ≡ condition_refusal (hypermap_of table.now) (links_in links.now) }
{
    let are_edges_apart = mark_firsts::<GOES_ON>(table, Orbit::Edge, links, marks);
    if !pairs_together(table, links, marks) {
        return Err(Refusal::Apart);
    }
    if !list::pairs_differ(links) {
        return Err(Refusal::SameTab);
    }
    if !are_edges_apart {
        return Err(Refusal::TieTwice);
    }
    if !mark_firsts::<STOPS>(table, Orbit::Face, links, marks) {
        return Err(Refusal::GapTwice);
    }
    if !path_closes(table, links, marks) {
        return Err(Refusal::PathBroken);
    }
    Ok(())
}

// Never inlined: the marks make a large frame.
#[inline(never)]
#[tactic(auto, using(crate::proofs::RingStages::ring_stages), unfolding(crate::proofs::RingStages::definitions))]
pub fn judge_ring(table: &[u16], ring: &[u16]) -> Result<(), Refusal>
    requires { WithinCapacity table.now }
    ensures { reply result ≡ ring_refusal table.now ring.now }
{
    if !list::is_list(ring) {
        return Err(Refusal::NoList);
    }
    list::judge_words(table, ring)?;
    let (links, _) = ring.as_chunks::<2>();
    let n = words::capacity_of(table);
    let mut marks = [0u16; MAX_CAPACITY]; // fixed memory: no heap
    judge_conditions(table, links, &mut marks[..n])
}
