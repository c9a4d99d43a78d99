// Whether a table holds a hypermap. Half the look-ups of the definition suffice: successors that are undone by their
// predecessors are an injection of the darts into themselves, and so onto.
#![tactic(auto, unfolding(crate::specs::Inner::half_linked, crate::specs::Inner::half_fits))]

ghost use Rattle.std.specs.Prelude.{◌≡◌, ◌<◌};
ghost use Rattle.table.specs.Limits.{edge_next, max_word};
ghost use Rattle.table.specs.Layout.{capacity, holds_hypermap};
ghost use Rattle.table.specs.Inner.{InTable, half_linked, half_fits, dimension_of};

use crate::limits::{EDGE_BACK, EDGE_NEXT, VERTEX_BACK, VERTEX_NEXT};
use crate::words::{BACK, NEXT};
use crate::{Dimension, words};

fn is_half_linked(table: &[u16], d: Dimension, x: u16) -> bool
    requires { InTable table.now x edge_next }
    ensures { result ≡ half_linked table.now (dimension_of d) x }
{
    let next = words::word(table, x, words::neighbour_word::<NEXT>(d));
    words::is_number(table, u32::from(next))
        && words::word(table, next, words::neighbour_word::<BACK>(d)) == x
}

fn half_fits(table: &[u16], x: u16) -> bool
    requires { InTable table.now x edge_next }
    ensures { result ≡ half_fits table.now x }
{
    if words::word(table, x, EDGE_NEXT) == 0 {
        (words::word(table, x, EDGE_BACK) == 0)
            & (words::word(table, x, VERTEX_NEXT) == 0)
            & (words::word(table, x, VERTEX_BACK) == 0)
    } else {
        is_half_linked(table, Dimension::Edge, x) && is_half_linked(table, Dimension::Vertex, x)
    }
}

pub fn holds_hypermap(table: &[u16]) -> bool
    requires { capacity table.now < max_word }
    ensures { result ≡ holds_hypermap table.now }
{
    (1..words::numbers_end(table)).all(|x| half_fits(table, x))
}
