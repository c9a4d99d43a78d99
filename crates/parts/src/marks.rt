// Marks: a word for each number of a table, marks[x - 1] for x; 0 stands for no mark. A pass over the numbers marks
// each part with its smallest dart, which is the first dart of it that the pass meets. Table and marks are passed
// apart: a struct of both is no plainer. It was tried on five functions: four `ensures` more, and half as much text
// again.
ghost use Rattle.std.specs.Prelude.{◌≡◌, ◌-◌, set};
ghost use Rattle.hypermap.specs.Hypermap.{orbit_of, orbits};
ghost use Rattle.table.specs.Layout.{hypermap_of};
ghost use Rattle.table.specs.Inner.{InTable, kind_of};
ghost use Rattle.parts.specs.Marks.{orbit_marks};
ghost use Rattle.parts.specs.Marking.{Marking, MarkingAt, HasMark, mark_at, is_fresh, PartMarked, HasFour};
ghost use Rattle.parts.specs.Marking.{four_marked};
ghost use Rattle.parts.specs.Marking.{Skipping, Skipped};

use table::words::NEXT;
use table::{Orbit, walk, words};

// The mark of x. This and `mark_dart` are two functions, since reading and writing borrow differently.
pub fn mark_of(marks: &[u16], x: u16) -> u16
    requires { HasMark marks.now x }
    ensures { result ≡ mark_at marks.now x }
{
    marks[usize::from(x) - 1]
}

pub fn mark_dart(marks: &mut [u16], x: u16, value: u16)
    requires { HasMark marks.old x }
    ensures { marks.new ≡ set marks.old (x - 1) value }
{
    marks[usize::from(x) - 1] = value;
}

// Whether x is a dart without a mark: in a pass over the numbers, the smallest dart of its part. Where there is a mark,
// the table is not read.
#[tactic(auto, unfolding(table::specs::Layout::is_present))]
pub fn is_fresh(table: &[u16], marks: &[u16], x: u16) -> bool
    requires in_table { InTable table.now x 0 }
    requires marks { HasMark marks.now x }
    ensures { result ≡ is_fresh table.now marks.now x }
{
    mark_of(marks, x) == 0 && words::is_dart(table, u32::from(x))
}

// Whether x and the three numbers after it have marks.
fn are_marked(marks: &[u16], x: u16) -> bool
    requires { HasFour marks.now x }
    ensures { result ≡ four_marked marks.now x }
{
    (mark_of(marks, x) != 0)
        & (mark_of(marks, x + 1) != 0)
        & (mark_of(marks, x + 2) != 0)
        & (mark_of(marks, x + 3) != 0)
}

// Where a pass goes on that has come to x: all numbers that it leaves out have marks. By hand: it goes four numbers at
// a time, which no range does. `n` is an argument beside the marks: to cut them to n before each call adds a branch
// that panics.
pub fn skip_marked(marks: &[u16], x: u16, n: usize) -> u16
    requires { Skipping marks.now x n }
    ensures { Skipped marks.now x n result }
{
    let mut at = x;
    while usize::from(at) + 3 <= n && are_marked(marks, at) {
        at += 4;
    }
    at
}

// Writes value at each dart of the orbit of x.
#[tactic(auto, using(crate::proofs::Walking::marking))]
pub fn mark_orbit(table: &[u16], orbit: Orbit, x: u16, value: u16, marks: &mut [u16])
    requires { MarkingAt table.now x marks.old }
    ensures { PartMarked (orbit_of (hypermap_of table.now) (kind_of orbit) x) value
        marks.old marks.new }
{
    let mut at = x;
    loop {
        mark_dart(marks, at, value);
        at = walk::step::<NEXT>(table, orbit, at);
        if at == x {
            return;
        }
    }
}

// The number of orbits, with the marks of all darts. One pass for this and `flood::mark_components` is no plainer: see
// there.
pub fn mark_orbits(table: &[u16], orbit: Orbit, marks: &mut [u16]) -> u32
    requires { Marking table.now marks.old }
    ensures value { result ≡ orbits (hypermap_of table.now) (kind_of orbit) }
    ensures marks { marks.new ≡ orbit_marks table.now (kind_of orbit) }
{
    marks.fill(0);
    let mut count = 0;
    for x in 1..words::numbers_end(table) {
        if is_fresh(table, marks, x) {
            mark_orbit(table, orbit, x, x, marks);
            count += 1;
        }
    }
    count
}
