// The kernel's public calls: the whole of what a caller may use. None has a `requires`: whatever words are lent and
// whatever numbers come, each call answers, and its contract says what, and what every lent word is afterwards.

#![tactic(auto, using(crate::proofs::Opening::calls), unfolding(crate::proofs::Opening::definitions))]

ghost use Rattle.std.specs.Prelude.{◌≡◌};
ghost use Rattle.table.specs.Commands.{puts, takes_out, joins, cuts};
ghost use Rattle.table.specs.Inner.{dimension_of, command_for};
ghost use Rattle.table.specs.Replies.{reply};
ghost use Rattle.tape.specs.Runs.{told_of};
ghost use Rattle.tape.specs.Replies.{run_reply};
ghost use Rattle.needs.specs.Replies.{needs_in};
ghost use Rattle.kernel.specs.Calls.{call_refusal, call_leaves, ring_call_refusal, ring_call_leaves, report_of};
ghost use Rattle.kernel.specs.Calls.{component_report_of, same_answer, round_answer, round_leaves, marks_answer};
ghost use Rattle.kernel.specs.Calls.{marks_leaves, look_of, look_place};
ghost use Rattle.kernel.specs.Tapes.{play_outcome, needs_answer, tape_answer, tape_leaves};
ghost use Rattle.kernel.specs.Tapes.{screen_refusal, screen_leaves};
ghost use Rattle.kernel.specs.Replies.{totals_reply, count_reply, shared_reply};

mod answers;
mod questions;

use needs::tallying;
pub use needs::{Amounts, Needs};
pub use parts::{Counts, Part};
use parts::{count, flood, share};
use questions::{judge_dart_question, judge_darts_question};
use rings::cut::cut_ring;
use soundness::{judge_table, judge_tape};
use table::limits::{EDGE_NEXT, SCREEN_ROOM, WORDS_PER_DART};
pub use table::refusals::Refusal;
use table::words::to_word;
pub use table::{Change, Dimension, Orbit};
use table::{changes, walk, words};
use tape::play as player;
pub use tape::{Run, Stopped};
use writer::screen::play_and_answer;
use writer::write;

// What C is told of a report: a refusal and zeros, or 0 and the numbers in document 01's order. The fields of `Counts`
// are here again, since C's struct and the promises name each of them.
#[repr(C)]
#[derive(Clone, Copy, Default)]
pub struct Totals {
    pub number: u8,
    pub darts: u32,
    pub edges: u32,
    pub vertices: u32,
    pub faces: u32,
    pub components: u32,
    pub characteristic: i32,
    pub genus: u32,
    pub lifts: u32,
}

// What C is told of a question: a refusal and nothing else, or 0 and what was asked. C has no `Result` and no `Option`,
// so a number and a flag stand beside the count.
#[repr(C)]
#[derive(Clone, Copy, Default)]
pub struct Answer {
    pub number: u8,
    pub yes: bool,
    pub count: u32,
}

// CHANGES: each is accepted, or refused, and then no word has changed. One call makes them all; the others name one
// change each, as the interface does, and so are alike.

pub fn make_change(table: &mut [u16], change: Change) -> Result<(), Refusal>
    ensures value { reply result ≡ call_refusal table.old (command_for change) }
    ensures table { table.new ≡ call_leaves table.old (command_for change) }
{
    judge_table(table)?;
    changes::perform(table, change)
}

// Dart x appears, an edge and a vertex by itself.
pub fn put(table: &mut [u16], x: u32) -> Result<(), Refusal>
    ensures value { reply result ≡ call_refusal table.old (puts x) }
    ensures table { table.new ≡ call_leaves table.old (puts x) }
{
    make_change(table, Change::Put(x))
}

// Dart x disappears, which is an edge and a vertex by itself.
pub fn take_out(table: &mut [u16], x: u32) -> Result<(), Refusal>
    ensures value { reply result ≡ call_refusal table.old (takes_out x) }
    ensures table { table.new ≡ call_leaves table.old (takes_out x) }
{
    make_change(table, Change::TakeOut(x))
}

// The edges, or the vertices, of a and b become one.
pub fn join(table: &mut [u16], d: Dimension, a: u32, b: u32) -> Result<(), Refusal>
    ensures value { reply result ≡ call_refusal table.old (joins (dimension_of d) a b) }
    ensures table { table.new ≡ call_leaves table.old (joins (dimension_of d) a b) }
{
    // A match: a change has a variant for each dimension.
    match d {
        Dimension::Edge => make_change(table, Change::EdgeJoin(a, b)),
        Dimension::Vertex => make_change(table, Change::VertexJoin(a, b)),
    }
}

// The edge, or the vertex, of a and b becomes two, one with a and one with b.
pub fn cut(table: &mut [u16], d: Dimension, a: u32, b: u32) -> Result<(), Refusal>
    ensures value { reply result ≡ call_refusal table.old (cuts (dimension_of d) a b) }
    ensures table { table.new ≡ call_leaves table.old (cuts (dimension_of d) a b) }
{
    // A match: a change has a variant for each dimension.
    match d {
        Dimension::Edge => make_change(table, Change::EdgeCut(a, b)),
        Dimension::Vertex => make_change(table, Change::VertexCut(a, b)),
    }
}

// A RING

// Cuts the edge of each double-link of a ring, lent as a list of words: the two darts of each double-link in turn.
// Document 01: the ring cut, crossing by crossing.
pub fn ring_cut(table: &mut [u16], ring: &[u16]) -> Result<(), Refusal>
    ensures value { reply result ≡ ring_call_refusal table.old ring.now }
    ensures table { table.new ≡ ring_call_leaves table.old ring.now }
{
    judge_table(table)?;
    cut_ring(table, ring)
}

// QUESTIONS

// How many darts, edges, vertices, faces and components there are, the characteristic, the genus, and the lifts, which
// are the components of at least two darts.
pub fn report(table: &[u16]) -> Result<Counts, Refusal>
    ensures { totals_reply result ≡ report_of table.now }
{
    judge_table(table)?;
    Ok(count::counts(table))
}

// The same numbers of the component of x by itself.
pub fn component_report(table: &[u16], x: u32) -> Result<Counts, Refusal>
    ensures { totals_reply result ≡ component_report_of table.now x }
{
    judge_dart_question(table, x)?;
    Ok(count::component_counts(table, to_word(x)))
}

// How far b is from a round the edge or vertex that both lie in: the fewest steps, each to the successor. 0 where both
// lie in one face, or component, as was asked. None where no part of the kind that was asked for holds both.
pub fn same(table: &[u16], part: Part, a: u32, b: u32) -> Result<Option<u16>, Refusal>
    ensures { shared_reply result ≡ same_answer table.now part a b }
{
    judge_darts_question(table, a, b)?;
    Ok(share::distance(table, part, to_word(a), to_word(b)))
}

// The edge, vertex or face of x into out, in walking order and x first. Answers its length.
pub fn round(table: &[u16], orbit: Orbit, x: u32, out: &mut [u16]) -> Result<u32, Refusal>
    ensures value { count_reply result ≡ round_answer table.now orbit x out.old }
    ensures out { out.new ≡ round_leaves table.now orbit x out.old }
{
    judge_dart_question(table, x)?;
    let dart = to_word(x);
    let count = walk::orbit_length(table, orbit, dart);
    if out.len() < usize::from(count) {
        return Err(Refusal::ShortRoom);
    }
    walk::write_orbit(table, orbit, dart, out);
    Ok(count.into())
}

// For each number up to the capacity the smallest dart of its component into out, 0 where there is no dart. Answers the
// capacity.
pub fn component_marks(table: &[u16], out: &mut [u16]) -> Result<u32, Refusal>
    ensures value { count_reply result ≡ marks_answer table.now out.old }
    ensures out { out.new ≡ marks_leaves table.now out.old }
{
    judge_table(table)?;
    let n = words::capacity_of(table);
    if out.len() < n {
        return Err(Refusal::ShortRoom);
    }
    flood::mark_components(table, &mut out[..n]);
    // `as`: the library has no `From<usize>` for `u32`, and `try_from` adds a branch that panics.
    Ok(n as u32)
}

// The words of dart x in the table, not a copy: the part returned begins at their place in the lent memory. It is
// empty, in place of a refusal, where the question "same tie as itself" is refused: this is the form of document 01.
pub fn look<'a>(table: &'a [u16], x: u32) -> &'a [u16]
    ensures result_value { result.now ≡ look_of table.now x }
    ensures place { result.ref_ptr ≡ look_place table.now x table.entry.ref_ptr }
{
    let Ok(()) = judge_darts_question(table, x, x) else {
        return &table[..0];
    };
    let at = words::place_of(x, EDGE_NEXT);
    &table[at..at + WORDS_PER_DART]
}

// TAPES

// Plays a tape command by command. The first refused one stops the run, and the effect of those before it stays.
// Answers how many were accepted.
pub fn play(table: &mut [u16], tape: &[u8]) -> Result<u32, Stopped>
    ensures value { run_reply result ≡ told_of (play_outcome table.old tape.now) }
    ensures table { table.new ≡ (play_outcome table.old tape.now).state }
{
    judge_tape(tape)?;
    judge_table(table)?;
    player::play_table(table, tape)
}

// What a tape needs, without playing it: the least capacity at which no dart that it names is off the table, its
// commands, the peak of puts less take-outs, and the words that it changes where all are accepted.
pub fn tape_needs(tape: &[u8]) -> Result<Amounts, Refusal>
    ensures { needs_in result ≡ needs_answer tape.now }
{
    judge_tape(tape)?;
    tallying::needs_of(tape)
}

// The canonical tape of the table into out. Answers how many bytes it has.
pub fn write_tape(table: &[u16], out: &mut [u8]) -> Result<u32, Refusal>
    ensures value { count_reply result ≡ tape_answer table.now out.old }
    ensures out { out.new ≡ tape_leaves table.now out.old }
{
    judge_table(table)?;
    write::write_tape(table, out)
}

// The planning screen's call: plays a tape on an empty table of 4,096 darts and writes ten numbers and the rewritten
// tape into out. include/lotskadi.h tells C what each byte is.
pub fn screen(tape: &[u8], out: &mut [u8]) -> Result<(), Refusal>
    ensures value { reply result ≡ screen_refusal tape.now out.old }
    ensures out { out.new ≡ screen_leaves tape.now out.old }
{
    judge_tape(tape)?;
    if out.len() < SCREEN_ROOM {
        return Err(Refusal::ShortRoom);
    }
    play_and_answer(tape, out);
    Ok(())
}
