// The words of a table, read and written one at a time. A word that names a dart is a `u16`; a number from outside has
// 32 bits, and becomes a word only where it is known to be small enough.
ghost use Rattle.std.specs.Prelude.{◌≡◌, cond, ◌+◌, ◌<◌, ◌≤◌, nat_lt};
ghost use Rattle.table.specs.Limits.{words_per_dart, edge_next, max_word};
ghost use Rattle.table.specs.Layout.{place, word_at, capacity, is_number, is_present, next_word, back_word};
ghost use Rattle.table.specs.Commands.{with_word};
ghost use Rattle.table.specs.Inner.{InTable, dimension_of};

use crate::Dimension;
use crate::limits::{EDGE_BACK, EDGE_NEXT, VERTEX_BACK, VERTEX_NEXT, WORDS_PER_DART};

// NUMBERS and words

pub fn to_word(x: u32) -> u16
    requires { x ≤ max_word }
    ensures { result ≡ x }
{
    // `as`: `try_from` would add a branch that panics.
    x as u16
}

// PLACES

pub fn capacity_of(table: &[u16]) -> usize
    ensures { result ≡ capacity table.now }
{
    table.len() / WORDS_PER_DART
}

// One more than the capacity: where a pass over the numbers of a table ends. Not the capacity, for passes over `1..=`:
// with these the test of a table takes 1.33 of the time, and writing a tape 1.05 by its two loops and 1.07 by
// `count_darts`. The loops of `parts` take no longer, but each has a goal more to prove.
pub fn numbers_end(table: &[u16]) -> u16
    requires { capacity table.now < max_word }
    ensures { result ≡ capacity table.now + 1 }
{
    // `as`: `try_from` would add a branch that panics.
    (capacity_of(table) + 1) as u16
}

// Where word i of dart x stands. The words lie flat, as C lends them.
pub fn place_of(x: u32, i: usize) -> usize
    requires { (1 ≤ x) × (i < words_per_dart) }
    ensures { result ≡ place x i }
{
    // `as`: the library has no `From<u32>` for `usize`, and `try_from` would add a branch that panics.
    WORDS_PER_DART * (x as usize - 1) + i
}

// The two ways round an orbit: to successors, and back to predecessors. A const parameter can only be a number or a
// bool, so the two ways are bools.
pub const NEXT: bool = false;

pub const BACK: bool = true;

// Where a dart's neighbour on that way stands among its words.
pub fn neighbour_word<const WAY: bool>(d: Dimension) -> usize
    ensures value { result ≡ cond WAY (back_word (dimension_of d)) (next_word (dimension_of d)) }
    ensures small { result < words_per_dart }
{
    // A match: a place for each dimension and way.
    match (d, WAY) {
        (Dimension::Edge, NEXT) => EDGE_NEXT,
        (Dimension::Edge, BACK) => EDGE_BACK,
        (Dimension::Vertex, NEXT) => VERTEX_NEXT,
        (Dimension::Vertex, BACK) => VERTEX_BACK,
    }
}

// WORDS

// Reading and writing borrow differently; the place is computed once, by `place_of`.
#[tactic(auto, unfolding(crate::specs::Layout::word_at))]
pub fn word(table: &[u16], x: u16, i: usize) -> u16
    requires { InTable table.now x i }
    ensures { result ≡ word_at table.now x i }
{
    let at = place_of(u32::from(x), i);
    table[at]
}

#[tactic(auto, unfolding(crate::specs::Commands::with_word))]
pub fn set_word(table: &mut [u16], x: u16, i: usize, value: u16)
    requires { InTable table.old x i }
    ensures { table.new ≡ with_word x i value table.old }
{
    let at = place_of(u32::from(x), i);
    table[at] = value;
}

// DARTS

// Whether x is a number from 1 to the capacity. One test for both ends: 0 less 1 wraps to the greatest number of all.
pub fn is_number(table: &[u16], x: u32) -> bool
    ensures { result ≡ is_number table.now x }
{
    // `as`: the library has no `From<u32>` for `usize`, and `try_from` would add a branch that panics.
    std::num::wrapping_sub_usize(x as usize, 1) < capacity_of(table)
}

// Whether number x of the table is a dart.
#[tactic(auto, unfolding(crate::specs::Layout::word_at))]
pub fn is_dart(table: &[u16], x: u32) -> bool
    requires { InTable table.now x edge_next }
    ensures { result ≡ nat_lt 0 (word_at table.now x edge_next) }
{
    let at = place_of(x, EDGE_NEXT);
    0 < table[at]
}

#[tactic(auto, unfolding(crate::specs::Layout::is_present))]
pub fn is_present(table: &[u16], x: u32) -> bool
    ensures { result ≡ is_present table.now x }
{
    is_number(table, x) && is_dart(table, x)
}
