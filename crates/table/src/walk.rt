// Walks from dart to dart of a table that holds a hypermap. A walk needs no counter to end: by the law of orbits it
// comes home. One that counts its steps counts in 16 bits: no orbit passes the capacity, nor has as many darts as a
// word has values. Table, orbit and dart are what a walk is asked for, and so are arguments: a struct of them would be
// made for one call. Each walk is a loop of its own: an iterator over the darts of an orbit ends where it began, so it
// would need a flag for the start beside the dart, and test it at each step.
#![tactic(auto, using(crate::proofs::Walking::walks))]

ghost use Rattle.std.specs.Prelude.{◌≡◌, cond, ◌++◌, length, drop};
ghost use Rattle.hypermap.specs.Hypermap.{step as step_of, step_back, orbit_of};
ghost use Rattle.table.specs.Layout.{word_at, next_word, back_word, hypermap_of};
ghost use Rattle.table.specs.Inner.{HypermapAt, RoomForOrbit, WithinCapacityAtBoth, dimension_of, kind_of};
ghost use Rattle.table.specs.Inner.{distance_found};

use crate::words::{BACK, NEXT, neighbour_word, word};
use crate::{Dimension, Orbit};

// The successor of a dart, or its predecessor: a dart too.
pub fn neighbour<const WAY: bool>(table: &[u16], d: Dimension, x: u16) -> u16
    requires { HypermapAt table.now x }
    ensures value { result ≡ word_at table.now x (cond WAY (back_word (dimension_of d)) (next_word (dimension_of d))) }
    ensures there { HypermapAt table.now result }
{
    word(table, x, neighbour_word::<WAY>(d))
}

// The step of an orbit, or the step back. Of a face: the edge predecessor, and then its vertex predecessor.
pub fn step<const WAY: bool>(table: &[u16], orbit: Orbit, x: u16) -> u16
    requires { HypermapAt table.now x }
    ensures { result ≡ cond WAY (step_back (hypermap_of table.now) (kind_of orbit) x)
        (step_of (hypermap_of table.now) (kind_of orbit) x) }
{
    // A match: which step it is comes from outside. Handed in as a closure it would be chosen by each caller of a walk
    // instead, and each walk would have to say in its contract which of the three steps the closure is.
    match (orbit, WAY) {
        (Orbit::Edge, _) => neighbour::<WAY>(table, Dimension::Edge, x),
        (Orbit::Vertex, _) => neighbour::<WAY>(table, Dimension::Vertex, x),
        (Orbit::Face, NEXT) => {
            let y = neighbour::<BACK>(table, Dimension::Edge, x);
            neighbour::<BACK>(table, Dimension::Vertex, y)
        }
        (Orbit::Face, BACK) => {
            let y = neighbour::<NEXT>(table, Dimension::Vertex, x);
            neighbour::<NEXT>(table, Dimension::Edge, y)
        }
    }
}

// The number of darts of an orbit. A loop that yields its count by `break` is document 01's form.
pub fn orbit_length(table: &[u16], orbit: Orbit, x: u16) -> u16
    requires { HypermapAt table.now x }
    ensures { result ≡ length (orbit_of (hypermap_of table.now) (kind_of orbit) x) }
{
    let mut at = x;
    let mut steps: u16 = 0;
    loop {
        at = step::<NEXT>(table, orbit, at);
        steps += 1;
        if at == x {
            break steps;
        }
    }
}

// Writes an orbit to the front of out, in walking order.
pub fn write_orbit(table: &[u16], orbit: Orbit, x: u16, out: &mut [u16])
    requires { RoomForOrbit table.now (kind_of orbit) x out.old }
    ensures { out.new ≡ orbit_of (hypermap_of table.now) (kind_of orbit) x ++
        drop (length (orbit_of (hypermap_of table.now) (kind_of orbit) x)) out.old }
{
    let mut at = x;
    for word in out.iter_mut() {
        *word = at;
        at = step::<NEXT>(table, orbit, at);
        if at == x {
            return;
        }
    }
}

// How far b is from a round an orbit, None where b is not in it. One walk goes forward from a and one back from b, a
// step each in turn. After n steps in all they are at one dart exactly if n steps lead from a to b, so their first
// meeting gives the distance. If one of them comes home first, b is not in the orbit of a, and both together have made
// at most twice as many steps as the shorter orbit has darts. The step back goes first, since on a canonical tape the
// second dart of a join is alone. Both walks together make fewer steps than twice the capacity. A loop by hand: no
// range has two walks in turn.
pub fn distance(table: &[u16], orbit: Orbit, a: u16, b: u16) -> Option<u16>
    requires { WithinCapacityAtBoth table.now a b }
    ensures { result ≡ distance_found table.now (kind_of orbit) a b }
{
    let mut x = a;
    let mut y = b;
    let mut walked: u16 = 0;
    loop {
        if x == y {
            return Some(walked);
        }
        y = step::<BACK>(table, orbit, y);
        if y == b {
            return None;
        }
        if x == y {
            return Some(walked + 1);
        }
        x = step::<NEXT>(table, orbit, x);
        if x == a {
            return None;
        }
        walked += 2;
    }
}
