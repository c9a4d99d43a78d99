// What a change writes, as document 01 says it in words.
ghost use Rattle.std.specs.Prelude.{◌≡◌};
ghost use Rattle.table.specs.Commands.{with_all, swapped};
ghost use Rattle.table.specs.Limits.{edge_next};
ghost use Rattle.table.specs.Inner.{InTable, HypermapAtBoth, dimension_of};

use crate::limits::{EDGE_NEXT, WORDS_PER_DART};
use crate::words::{BACK, NEXT};
use crate::{Dimension, words};

// The four words of dart x.
#[tactic(auto, using(crate::proofs::Writing::all_filled))]
pub fn set_all(table: &mut [u16], x: u16, value: u16)
    requires { InTable table.old x edge_next }
    ensures { table.new ≡ with_all x value table.old }
{
    let at = words::place_of(u32::from(x), EDGE_NEXT);
    table[at..at + WORDS_PER_DART].fill(value);
}

// The change of Definition 2.8: a join or a cut.
#[tactic(auto, using(crate::proofs::Reading::reads), unfolding(crate::specs::Commands::swapped))]
pub fn swap(table: &mut [u16], d: Dimension, a: u16, b: u16)
    requires { HypermapAtBoth table.old a b }
    ensures { table.new ≡ swapped (dimension_of d) a b table.old }
{
    let next = words::neighbour_word::<NEXT>(d);
    let back = words::neighbour_word::<BACK>(d);
    let before_a = words::word(table, a, back);
    let before_b = words::word(table, b, back);
    words::set_word(table, a, back, before_b);
    words::set_word(table, b, back, before_a);
    words::set_word(table, before_b, next, a);
    words::set_word(table, before_a, next, b);
}
