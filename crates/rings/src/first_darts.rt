// The orbits of the first darts of a list, each marked from the earliest first dart in it. No dart is marked twice, so
// the time is linear in the table and the list, even where many double-links lie in one orbit. Table, double-links and
// marks are passed apart, for the reason that `parts::marks` gives.
ghost use Rattle.std.specs.Prelude.{◌≡◌, true};
ghost use Rattle.table.specs.Inner.{kind_of};
ghost use Rattle.rings.specs.Inner.{links_in, LinksMarking, firsts_apart, FirstsTell, FirstsMarked};

use parts::marks;
use table::Orbit;

// What a pass does at a first dart that shares its orbit with an earlier one: it goes on to the others, or stops.
// Bools, like `NEXT` and `BACK` of `table::words`.
pub const GOES_ON: bool = true;

pub const STOPS: bool = false;

// Marks the orbits of the first darts. Whether no two of them lie in one: a first dart that has a mark already lies in
// the orbit of an earlier one. A pass that has stopped leaves marks that nobody may read.
#[tactic(auto, using(crate::proofs::MarkingFirsts::firsts_pass))]
pub fn mark_firsts<const PAST: bool>(
    table: &[u16],
    orbit: Orbit,
    links: &[[u16; 2]],
    marks: &mut [u16],
) -> bool
    requires { LinksMarking table.now (links_in links.now) marks.old }
    ensures value { result ≡ firsts_apart table.now (kind_of orbit) (links_in links.now) }
    ensures tell { PAST ≡ true → FirstsTell table.now (kind_of orbit) (links_in links.now) marks.new }
    ensures marks { result ≡ true →
        FirstsMarked table.now (kind_of orbit) (links_in links.now) marks.new }
{
    marks.fill(0);
    let mut are_apart = true;
    for &[first, _] in links {
        if marks::mark_of(marks, first) == 0 {
            marks::mark_orbit(table, orbit, first, first, marks);
        } else if PAST {
            are_apart = false;
        } else {
            return false;
        }
    }
    are_apart
}
