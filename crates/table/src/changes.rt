// A change of a table: whether it is refused, the words that it writes, and both in turn. Document 01's refusals 1 and
// 2 are the caller's.
#![tactic(auto, using(crate::proofs::Accepting::judging), unfolding(crate::proofs::Accepting::definitions))]

ghost use Rattle.std.specs.Prelude.{◌≡◌, [], ◌∷◌};
ghost use Rattle.table.specs.Limits.{edge_next};
ghost use Rattle.table.specs.Commands.{is_alone, is_together, presence_refusal, command_refusal, command_on};
ghost use Rattle.table.specs.Commands.{puts, takes_out, joins, cuts, with_all, swapped, leaves, command_leaves};
ghost use Rattle.table.specs.Inner.{InTable, WithinCapacity, WithinCapacityAtBoth, Storable};
ghost use Rattle.table.specs.Inner.{dimension_of, command_for};
ghost use Rattle.table.specs.Refusals.{or_else};
ghost use Rattle.table.specs.Replies.{reply};

use crate::limits::{EDGE_NEXT, VERTEX_NEXT};
use crate::refusals::Refusal;
use crate::words::to_word;
use crate::{Change, Dimension, Orbit, store, walk, words};

// A dimension and two darts are a `Change` above and arguments by themselves here: a struct of them would be taken
// apart where it is made.

// WHAT IS JUDGED

// Refusals 3 and then 4, of one dart.
pub fn judge_dart(table: &[u16], x: u32) -> Result<(), Refusal>
    ensures { reply result ≡ presence_refusal table.now (x ∷ []) }
{
    if !words::is_number(table, x) {
        return Err(Refusal::OffTheTable);
    }
    if !words::is_dart(table, x) {
        return Err(Refusal::NoTab);
    }
    Ok(())
}

// Refusals 3 and then 4, each of both darts. One function for any number of darts is no plainer: it would have a loop
// where two comparisons stand, and it stands in the loop over a tape's commands.
pub fn judge_darts(table: &[u16], a: u32, b: u32) -> Result<(), Refusal>
    ensures { reply result ≡ presence_refusal table.now (a ∷ b ∷ []) }
{
    if !(words::is_number(table, a) & words::is_number(table, b)) {
        return Err(Refusal::OffTheTable);
    }
    if !(words::is_dart(table, a) & words::is_dart(table, b)) {
        return Err(Refusal::NoTab);
    }
    Ok(())
}

// Whether dart x is an edge and a vertex by itself.
pub fn is_alone(table: &[u16], x: u16) -> bool
    requires { InTable table.now x edge_next }
    ensures { result ≡ is_alone table.now x }
{
    (words::word(table, x, EDGE_NEXT) == x) & (words::word(table, x, VERTEX_NEXT) == x)
}

// Whether a and b lie in one edge or vertex.
fn are_together(table: &[u16], d: Dimension, a: u32, b: u32) -> bool
    requires { WithinCapacityAtBoth table.now a b }
    ensures { result ≡ is_together table.now (dimension_of d) a b }
{
    walk::distance(table, Orbit::from(d), to_word(a), to_word(b)).is_some()
}

// WHETHER A CHANGE IS REFUSED

// Refusals 3 and then 5. One function with `judge_dart`, given what is wanted and what is refused, is no plainer: 29
// lines for 21.
pub fn judge_put(table: &[u16], x: u32) -> Result<(), Refusal>
    ensures { reply result ≡ command_refusal table.now (puts x) }
{
    if !words::is_number(table, x) {
        return Err(Refusal::OffTheTable);
    }
    if words::is_dart(table, x) {
        return Err(Refusal::TabTaken);
    }
    Ok(())
}

pub fn judge_take_out(table: &[u16], x: u32) -> Result<(), Refusal>
    requires { WithinCapacity table.now }
    ensures { reply result ≡ command_refusal table.now (takes_out x) }
{
    judge_dart(table, x)?;
    if !is_alone(table, to_word(x)) {
        return Err(Refusal::TabHeld);
    }
    Ok(())
}

pub fn judge_join(table: &[u16], d: Dimension, a: u32, b: u32) -> Result<(), Refusal>
    requires { WithinCapacity table.now }
    ensures { reply result ≡ command_refusal table.now (joins (dimension_of d) a b) }
{
    judge_darts(table, a, b)?;
    if are_together(table, d, a, b) {
        return Err(Refusal::Together);
    }
    Ok(())
}

pub fn judge_cut(table: &[u16], d: Dimension, a: u32, b: u32) -> Result<(), Refusal>
    requires { WithinCapacity table.now }
    ensures { reply result ≡ command_refusal table.now (cuts (dimension_of d) a b) }
{
    judge_darts(table, a, b)?;
    if !are_together(table, d, a, b) {
        return Err(Refusal::Apart);
    }
    if a == b {
        return Err(Refusal::SameTab);
    }
    Ok(())
}

// ITS WORDS, where it is not refused

fn write_all(table: &mut [u16], x: u32, value: u32)
    requires { Storable table.old x value }
    ensures { table.new ≡ with_all x value table.old }
{
    store::set_all(table, to_word(x), to_word(value));
}

fn write_swap(table: &mut [u16], d: Dimension, a: u32, b: u32)
    requires { WithinCapacityAtBoth table.old a b }
    ensures { table.new ≡ swapped (dimension_of d) a b table.old }
{
    store::swap(table, d, to_word(a), to_word(b));
}

// BOTH IN TURN: a change is judged, and then its words are written. `last` is what the caller answers after the
// change's own refusals; where that is an error, nothing is written. It is an argument, since each arm, in which the
// dimension is known, judges and writes by itself.

#[inline(always)]
pub fn perform_with(
    table: &mut [u16],
    change: Change,
    last: Result<(), Refusal>,
) -> Result<(), Refusal>
    requires { WithinCapacity table.old }
    ensures value { reply result ≡ or_else (command_refusal table.old (command_for change)) (reply last) }
    ensures table { table.new ≡ leaves
        (or_else (command_refusal table.old (command_for change)) (reply last))
        (command_on table.old (command_for change)) table.old }
{
    // By arms, in which the dimension is a constant: docs/DECISIONS.md, "A change as a value".
    match change {
        Change::Put(x) => {
            judge_put(table, x).and(last)?;
            write_all(table, x, x);
        }
        Change::TakeOut(x) => {
            judge_take_out(table, x).and(last)?;
            write_all(table, x, 0);
        }
        Change::EdgeJoin(a, b) => {
            judge_join(table, Dimension::Edge, a, b).and(last)?;
            write_swap(table, Dimension::Edge, a, b);
        }
        Change::EdgeCut(a, b) => {
            judge_cut(table, Dimension::Edge, a, b).and(last)?;
            write_swap(table, Dimension::Edge, a, b);
        }
        Change::VertexJoin(a, b) => {
            judge_join(table, Dimension::Vertex, a, b).and(last)?;
            write_swap(table, Dimension::Vertex, a, b);
        }
        Change::VertexCut(a, b) => {
            judge_cut(table, Dimension::Vertex, a, b).and(last)?;
            write_swap(table, Dimension::Vertex, a, b);
        }
    }
    Ok(())
}

#[inline(always)]
pub fn perform(table: &mut [u16], change: Change) -> Result<(), Refusal>
    requires { WithinCapacity table.old }
    ensures value { reply result ≡ command_refusal table.old (command_for change) }
    ensures table { table.new ≡ command_leaves table.old (command_for change) }
{
    perform_with(table, change, Ok(()))
}
