// The two darts of each double-link in one edge, by the marks of the first darts' edges: the second dart has the mark
// of the first.
ghost use Rattle.std.specs.Prelude.{◌≡◌};
ghost use Rattle.table.specs.Layout.{hypermap_of};
ghost use Rattle.rings.specs.Rings.{pairs_together};
ghost use Rattle.rings.specs.Inner.{links_in, EdgesMarked};

use parts::marks;

// The code reads the marks alone; `table` is a parameter because the contract says of which table they are.
#[tactic(auto, using(crate::proofs::Pairs::asking_pairs))]
pub fn pairs_together(table: &[u16], links: &[[u16; 2]], marks: &[u16]) -> bool
    requires { EdgesMarked table.now (links_in links.now) marks.now }
    ensures { result ≡ pairs_together (hypermap_of table.now) (links_in links.now) }
{
    // A loop: the library's `all` was slower (docs/DECISIONS.md, "Passes over pairs").
    for &[first, second] in links {
        if marks::mark_of(marks, second) != marks::mark_of(marks, first) {
            return false;
        }
    }
    true
}
