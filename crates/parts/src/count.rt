// The numbers of a report, of all darts or of one component. One array of marks serves all counts: the darts to be
// counted have mark 1, the count of vertices raises it to 2, and the count of edges to 3 at the darts of edges of more
// than two.
ghost use Rattle.std.specs.Prelude.{◌≡◌, ◌+◌, ◌*◌, ◌<◌, pos, ◌+ℤ◌, ◌-ℤ◌, length, replicate};
ghost use Rattle.hypermap.specs.Hypermap.{orbits, component_at};
ghost use Rattle.table.specs.Limits.{max_capacity, max_word};
ghost use Rattle.table.specs.Layout.{hypermap_of};
ghost use Rattle.table.specs.Inner.{kind_of, WithinCapacity, WithinCapacityAt};
ghost use Rattle.parts.specs.Counts.{lifts, counts_of};
ghost use Rattle.parts.specs.Counting.{Few, HasGenus};
ghost use Rattle.parts.specs.MarkedSets.{MarkedSet, marked_in, Raised};
ghost use Rattle.parts.specs.Marking.{PartMarked};
ghost use Rattle.parts.specs.MarkedSets.{MarkedParts, flooded_of};

use crate::edges::count_edges;
use crate::flood::flood;
use crate::marks::{is_fresh, mark_of, mark_orbit, skip_marked};
use crate::{Counts, Flooded};
use table::limits::MAX_CAPACITY;
use table::{Orbit, changes, words};

pub fn count_darts(table: &[u16]) -> u32
    requires { WithinCapacity table.now }
    ensures { result ≡ length (hypermap_of table.now).darts }
{
    // `as`: the library has no `From<usize>` for `u32`, and `try_from` would add a branch that panics.
    (1..words::numbers_end(table))
        .filter(|x| words::is_dart(table, u32::from(*x)))
        .count() as u32
}

// LIFTS: the components of at least two darts

// The lifts of the component of x: one, unless x is alone.
#[tactic(auto, using(crate::proofs::Lifting::lifting))]
pub fn component_lifts(table: &[u16], x: u16) -> u32
    requires { WithinCapacityAt table.now x }
    ensures { result ≡ lifts (component_at (hypermap_of table.now) x) }
{
    u32::from(!changes::is_alone(table, x))
}

// MARKED DARTS

#[tactic(auto, using(std::proofs::lemmas::Grind::common_steps, crate::proofs::MarkedSets::count_set))]
pub fn count_marked(table: &[u16], marks: &[u16], value: u16) -> u32
    requires { MarkedSet table.now marks.now value }
    ensures { result ≡ length (marked_in table.now marks.now value).darts }
{
    let n = words::capacity_of(table);
    let mut count = 0;
    // Not `filter` and `count`: those are not vectorized, and take five times as long.
    for mark in &marks[..n] {
        if *mark == value {
            count += 1;
        }
    }
    count
}

// The orbits of the darts that are marked with value, and marked with the next number afterwards. One pass for this and
// `mark_orbits` would take closures for the test and the mark, and a contract of both that is longer than the passes.
pub fn count_orbits(table: &[u16], orbit: Orbit, marks: &mut [u16], value: u16) -> u32
    requires { MarkedSet table.now marks.old value × (value < max_word) }
    ensures value { result ≡ orbits (marked_in table.now marks.old value) (kind_of orbit) }
    ensures marks { Raised value marks.old marks.new }
{
    let mut count = 0;
    for x in 1..words::numbers_end(table) {
        if mark_of(marks, x) == value {
            mark_orbit(table, orbit, x, value + 1, marks);
            count += 1;
        }
    }
    count
}

// Vertices, edges and faces less darts: document 01's form is a sum of `i32`.
pub fn characteristic_of(darts: u32, edges: u32, vertices: u32, faces: u32) -> i32
    requires { Few darts edges vertices faces }
    ensures { result ≡ pos (vertices + edges + faces) -ℤ pos darts }
{
    vertices.cast_signed() + edges.cast_signed() + faces.cast_signed() - darts.cast_signed()
}

// The genus, by Euler's equation: (2·components − characteristic) / 2.
pub fn genus_of(components: u32, characteristic: i32) -> u32
    requires { HasGenus components characteristic }
    ensures { characteristic +ℤ pos (2 * result) ≡ pos (2 * components) }
{
    ((2 * components.cast_signed() - characteristic) / 2).cast_unsigned()
}

// REPORTS

// Of the darts that are marked with 1. The flood's results are arguments.
pub fn marked_counts(table: &[u16], marks: &mut [u16], found: Flooded) -> Counts
    requires { MarkedParts table.now marks.old found }
    ensures { result ≡ counts_of (marked_in table.now marks.old 1) }
{
    let darts = count_marked(table, marks, 1);
    let vertices = count_orbits(table, Orbit::Vertex, marks, 1);
    let edges = count_edges(table, marks, 2);
    let characteristic = characteristic_of(darts, edges, vertices, found.faces);
    let genus = genus_of(found.components, characteristic);
    Counts {
        darts,
        edges,
        vertices,
        faces: found.faces,
        components: found.components,
        characteristic,
        genus,
        lifts: found.lifts,
    }
}

// Writes 1 at each dart, flooding one component after another. Behind a flood most numbers are marked.
pub fn flood_all(table: &[u16], marks: &mut [u16]) -> Flooded
    requires { WithinCapacity table.now × (marks.old ≡ replicate max_capacity 0) }
    ensures value { result ≡ flooded_of (hypermap_of table.now) }
    ensures marks { PartMarked (hypermap_of table.now).darts 1
        marks.old marks.new }
{
    let mut queue = [0u16; MAX_CAPACITY]; // fixed memory: no heap
    let n = words::capacity_of(table);
    // Not `Flooded::default()`: with it a report of a grid takes 1.06 of the time.
    let mut found = Flooded {
        components: 0,
        lifts: 0,
        faces: 0,
    };
    let mut x = 1;
    // By hand: the pass skips marked numbers four at a time, which no range does.
    while usize::from(x) <= n {
        let mut next = x + 1;
        if is_fresh(table, marks, x) {
            found.faces += flood(table, x, 1, marks, &mut queue);
            found.lifts += component_lifts(table, x);
            found.components += 1;
            next = skip_marked(marks, next, n);
        }
        x = next;
    }
    found
}

// Of all darts.
pub fn counts(table: &[u16]) -> Counts
    requires { WithinCapacity table.now }
    ensures { result ≡ counts_of (hypermap_of table.now) }
{
    let mut marks = [0u16; MAX_CAPACITY]; // fixed memory: no heap
    let found = flood_all(table, &mut marks);
    marked_counts(table, &mut marks, found)
}

// Of the component of x, which alone is flooded.
pub fn component_counts(table: &[u16], x: u16) -> Counts
    requires { WithinCapacityAt table.now x }
    ensures { result ≡ counts_of (component_at (hypermap_of table.now) x) }
{
    let mut marks = [0u16; MAX_CAPACITY]; // fixed memory: no heap
    let mut queue = [0u16; MAX_CAPACITY]; // fixed memory: no heap
    let found = Flooded {
        components: 1,
        lifts: component_lifts(table, x),
        faces: flood(table, x, 1, &mut marks, &mut queue),
    };
    marked_counts(table, &mut marks, found)
}
