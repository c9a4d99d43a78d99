// Edges, counted. Nearly all have at most two darts, and are known by a successor that is the predecessor too. Such an
// edge is counted at its smaller dart, without a mark. That is a comparison and no branch: a branch on which dart of an
// edge comes first cannot be predicted where darts are numbered at random. One branch stays: whether an edge is short.
ghost use Rattle.std.specs.Prelude.{◌≡◌, cond, ◌<◌};
ghost use Rattle.hypermap.specs.Hypermap.{edges};
ghost use Rattle.table.specs.Limits.{max_word};
ghost use Rattle.parts.specs.MarkedSets.{MarkedSet, marked_in, is_tallied, EdgeLeft};
ghost use Rattle.parts.specs.Marking.{MarkingAt};

use crate::marks::{mark_of, mark_orbit};
use table::limits::{EDGE_BACK, EDGE_NEXT};
use table::{Orbit, words};

// 1 if the edge of x is counted at x, else 0. An edge of more than two darts is counted at once, and marked.
#[tactic(auto, using(table::proofs::Reading::reads))]
fn tally(table: &[u16], marks: &mut [u16], x: u16, value: u16) -> u32
    requires { MarkingAt table.now x marks.old }
    ensures value { result ≡ cond (is_tallied table.now x) 1 0 }
    ensures marks { EdgeLeft table.now x value marks.old marks.new }
{
    let y = words::word(table, x, EDGE_NEXT);
    if words::word(table, x, EDGE_BACK) == y {
        u32::from(x <= y)
    } else {
        mark_orbit(table, Orbit::Edge, x, value, marks);
        1
    }
}

// The edges of the darts that are marked with value; the darts of longer ones have the next number afterwards. Not by
// `count_orbits`, which marks every edge and branches on each mark: tried, and it is slower where darts are numbered at
// random (docs/PERFORMANCE.md, "An edge of at most two darts").
pub fn count_edges(table: &[u16], marks: &mut [u16], value: u16) -> u32
    requires { MarkedSet table.now marks.old value × (value < max_word) }
    ensures { result ≡ edges (marked_in table.now marks.old value) }
{
    let mut count = 0;
    for x in 1..words::numbers_end(table) {
        if mark_of(marks, x) == value {
            count += tally(table, marks, x, value + 1);
        }
    }
    count
}
