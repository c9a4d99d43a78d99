// Components, each flooded face by face. With a face the edge predecessors of its darts come into the queue, which is
// never emptied: the darts before its head lie in marked faces. What is closed under the steps of faces and under edge
// predecessors is closed under all successors, so a flood ends with its component; on its way it counts the faces.
ghost use Rattle.std.specs.Prelude.{◌≡◌};
ghost use Rattle.hypermap.specs.Hypermap.{component_of, component_at, components, faces, same_component};
ghost use Rattle.table.specs.Layout.{hypermap_of};
ghost use Rattle.parts.specs.Marks.{component_marks};
ghost use Rattle.table.specs.Inner.{WithinCapacityAtBoth};
ghost use Rattle.parts.specs.Marking.{Marking, PartMarked};
ghost use Rattle.parts.specs.Floods.{front, Entering, Entered, Unmarked};

use crate::marks::{is_fresh, mark_dart, mark_of};
use table::limits::{EDGE_BACK, MAX_CAPACITY, VERTEX_BACK};
use table::words;

// Writes value at each dart of the face of y, and the dart's edge predecessor into the queue, from `tail` on. The
// result is the new tail. Queue and tail stay two values, and the tail is counted by hand: the queue is fixed memory,
// never emptied, and read while it grows. An `ArrayVec`, which keeps its length in memory and writes blanks where it is
// emptied, was tried in the plain Rust of the benchmark: a report takes 1.02 to 1.06 of the time.
pub fn enter(
    table: &[u16],
    y: u16,
    value: u16,
    marks: &mut [u16],
    queue: &mut [u16],
    tail: usize,
) -> usize
    requires { Entering table.now y value (front marks.old queue.old tail) }
    ensures { Entered table.now y value (front marks.old queue.old tail)
        (front marks.new queue.new result) }
{
    let mut at = y;
    let mut end = tail;
    loop {
        mark_dart(marks, at, value);
        let back = words::word(table, at, EDGE_BACK);
        queue[end] = back;
        end += 1;
        at = words::word(table, back, VERTEX_BACK);
        if at == y {
            return end;
        }
    }
}

// Writes value at each dart of the component of x; the number of its faces.
pub fn flood(table: &[u16], x: u16, value: u16, marks: &mut [u16], queue: &mut [u16]) -> u32
    requires { Unmarked table.now x value marks.old queue.old }
    ensures value { result ≡ faces (component_at (hypermap_of table.now) x) }
    ensures marks { PartMarked (component_of (hypermap_of table.now) x) value
        marks.old marks.new }
{
    let mut tail = enter(table, x, value, marks, queue, 0);
    let mut count = 1;
    let mut head = 0;
    // By hand: the queue grows while it is read, which no slice does in a `for`.
    while head < tail {
        let y = queue[head];
        if mark_of(marks, y) == 0 {
            tail = enter(table, y, value, marks, queue, tail);
            count += 1;
        }
        head += 1;
    }
    count
}

// The number of components, with the marks of all darts. The pass is that of `mark_orbits`. One for both was written
// out: a trait of what marks a part, with the law that the parts are a partition, and an impl for orbits and one for
// components are 68 lines in place of 31.
pub fn mark_components(table: &[u16], marks: &mut [u16]) -> u32
    requires { Marking table.now marks.old }
    ensures value { result ≡ components (hypermap_of table.now) }
    ensures marks { marks.new ≡ component_marks table.now }
{
    let mut queue = [0u16; MAX_CAPACITY]; // fixed memory: no heap
    marks.fill(0);
    let mut count = 0;
    for x in 1..words::numbers_end(table) {
        if is_fresh(table, marks, x) {
            flood(table, x, x, marks, &mut queue);
            count += 1;
        }
    }
    count
}

// Whether b lies in the component of a, which alone is flooded.
#[tactic(auto, using(table::proofs::Reading::reads))]
pub fn same_component(table: &[u16], a: u16, b: u16) -> bool
    requires { WithinCapacityAtBoth table.now a b }
    ensures { result ≡ same_component (hypermap_of table.now) a b }
{
    let mut marks = [0u16; MAX_CAPACITY]; // fixed memory: no heap
    let mut queue = [0u16; MAX_CAPACITY]; // fixed memory: no heap
    flood(table, a, 1, &mut marks, &mut queue);
    mark_of(&marks, b) == 1
}
