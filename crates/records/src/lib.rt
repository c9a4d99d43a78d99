// A ring lent as records: its pairs are copied, and `ring_cut` is lent their words.

#![tactic(auto)]

ghost use Rattle.std.specs.Prelude.{◌≡◌};
ghost use Rattle.table.specs.Replies.{reply};
ghost use Rattle.kernel.specs.Calls.{ring_call_refusal, ring_call_leaves};
ghost use Rattle.tape.specs.Steps.{cuts_ring};
ghost use Rattle.journal_calls.specs.Calls.{state_of, perform_reply};
ghost use Rattle.records.specs.Records.{words_of};

mod flatten;

use arrayvec::ArrayVec;
use flatten::copy_pairs;
use journal_calls::Head;
use kernel::{Refusal, ring_cut};

// A double-link of a ring. Document 01: a crossing, with its first and second tab.
#[derive(Clone, Copy)]
pub struct DoubleLink {
    pub first: u16,
    pub second: u16,
}

// The break along a ring: what `ring_cut` answers and leaves for its words.
#[tactic(auto, using(crate::proofs::Words::fitting))]
pub fn ring_cut_records(table: &mut [u16], ring: &[DoubleLink]) -> Result<(), Refusal>
    ensures value { reply result ≡ ring_call_refusal table.old (words_of ring.now) }
    ensures table { table.new ≡ ring_call_leaves table.old (words_of ring.now) }
{
    let mut pairs = ArrayVec::new(); // fixed memory: no heap
    copy_pairs(ring, &mut pairs);
    ring_cut(table, pairs.as_flattened())
}

// The same with a journal: what `journal_calls::ring_cut` answers and leaves for its words. A function for both that
// takes the call as a closure was tried, and proves: it has ten lines more than the two bodies.
#[tactic(auto, using(crate::proofs::Words::fitting))]
pub fn journal_ring_cut_records(
    table: &mut [u16],
    journal: &mut [u16],
    head: &mut Head,
    ring: &[DoubleLink],
) -> Result<(), Refusal>
    ensures value { reply result ≡
        (perform_reply (state_of table.old journal.old head.old) (cuts_ring (words_of ring.now))).number }
    ensures state { state_of table.new journal.new head.new ≡
        (perform_reply (state_of table.old journal.old head.old) (cuts_ring (words_of ring.now))).state }
{
    let mut pairs = ArrayVec::new(); // fixed memory: no heap
    copy_pairs(ring, &mut pairs);
    journal_calls::ring_cut(table, journal, head, pairs.as_flattened())
}
