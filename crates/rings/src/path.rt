// The path of a ring, by the marks of the first darts' faces: each second dart has the next first dart for a mark.
ghost use Rattle.std.specs.Prelude.{◌≡◌};
ghost use Rattle.table.specs.Layout.{hypermap_of};
ghost use Rattle.rings.specs.Rings.{path_closes};
ghost use Rattle.rings.specs.Inner.{links_in, PathMarked};

use parts::marks;

// Whether the path goes on and closes: before the first dart of the list comes the last second dart. The code reads the
// marks alone; `table` is a parameter because the contract says of which table they are.
pub fn path_closes(table: &[u16], links: &[[u16; 2]], marks: &[u16]) -> bool
    requires { PathMarked table.now (links_in links.now) marks.now }
    ensures { result ≡ path_closes (hypermap_of table.now) (links_in links.now) }
{
    let Some(&[_, mut before]) = links.last() else {
        return true;
    };
    // A loop: the library's `all` was slower (docs/DECISIONS.md, "Passes over pairs").
    for &[first, second] in links {
        if marks::mark_of(marks, before) != first {
            return false;
        }
        before = second;
    }
    true
}
