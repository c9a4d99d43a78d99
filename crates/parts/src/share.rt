// Whether two darts share a part, and how far round an edge or vertex the second is from the first.
ghost use Rattle.std.specs.Prelude.{◌≡◌};
ghost use Rattle.parts.specs.Sharing.{sharing};
ghost use Rattle.table.specs.Inner.{WithinCapacityAtBoth};

use crate::{Part, flood};
use table::{Orbit, walk};

// The steps, 0 in a face or a component that they share, None where they share no part.
pub fn distance(table: &[u16], part: Part, a: u16, b: u16) -> Option<u16>
    requires { WithinCapacityAtBoth table.now a b }
    ensures { result ≡ sharing table.now part a b }
{
    // A match: an orbit is walked and a component flooded, and the caller names the part.
    match part {
        Part::Edge => walk::distance(table, Orbit::Edge, a, b),
        Part::Vertex => walk::distance(table, Orbit::Vertex, a, b),
        Part::Face => walk::distance(table, Orbit::Face, a, b).map(|_| 0),
        Part::Component => flood::same_component(table, a, b).then_some(0),
    }
}
