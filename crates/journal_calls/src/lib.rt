// The public calls that bring a journal: changes, rings and tapes whose accepted changes are written into it, and named
// states to come back to. Document 02, Job 5. None has a `requires`: whatever words are lent and whatever head comes,
// each call answers, and its contract says what, and what every lent word and the head are afterwards.

#![tactic(auto)]

ghost use Rattle.std.specs.Prelude.{◌≡◌};
ghost use Rattle.table.specs.Layout.{Table};
ghost use Rattle.table.specs.Commands.{puts, takes_out, joins, cuts};
ghost use Rattle.table.specs.Inner.{command_for, dimension_of};
ghost use Rattle.table.specs.Replies.{reply};
ghost use Rattle.tape.specs.Steps.{changes, cuts_ring};
ghost use Rattle.tape.specs.Runs.{told_of};
ghost use Rattle.tape.specs.Replies.{run_reply};
ghost use Rattle.journal_calls.specs.Calls.{state_of, perform_reply, play_reply, checkpoint_reply, back_reply};

pub mod c_replies;
mod judging;

pub use journal::Head;
use journal::machine::{JournaledTable, run_tape};
use journal::undo;
use judging::judge_state;
use soundness::judge_tape;
use table::refusals::Refusal;
use table::{Change, Dimension};
use tape::Stopped;
use tape::machine::Machine;

// CHANGES: one call makes them all; the others name one change each, as the calls of `kernel` do. The table, the
// journal and the head are lent apart by C and by callers in Rattle; `JournaledTable` has them together inside.

#[tactic(auto, using(crate::proofs::Replies::performing))]
pub fn make_change(
    table: &mut [u16],
    journal: &mut [u16],
    head: &mut Head,
    change: Change,
) -> Result<(), Refusal>
    ensures value { reply result ≡
        (perform_reply (state_of table.old journal.old head.old) (changes (command_for change))).number }
    ensures state { state_of table.new journal.new head.new ≡
        (perform_reply (state_of table.old journal.old head.old) (changes (command_for change))).state }
{
    judge_state(table, journal, head)?;
    let mut machine = JournaledTable {
        table,
        journal,
        used: &mut head.length,
    };
    machine.perform(change)
}

// Dart x appears, an edge and a vertex by itself.
pub fn put(table: &mut [u16], journal: &mut [u16], head: &mut Head, x: u32) -> Result<(), Refusal>
    ensures value { reply result ≡
        (perform_reply (state_of table.old journal.old head.old) (changes (puts x))).number }
    ensures state { state_of table.new journal.new head.new ≡
        (perform_reply (state_of table.old journal.old head.old) (changes (puts x))).state }
{
    make_change(table, journal, head, Change::Put(x))
}

// Dart x disappears, which is an edge and a vertex by itself.
pub fn take_out(
    table: &mut [u16],
    journal: &mut [u16],
    head: &mut Head,
    x: u32,
) -> Result<(), Refusal>
    ensures value { reply result ≡
        (perform_reply (state_of table.old journal.old head.old) (changes (takes_out x))).number }
    ensures state { state_of table.new journal.new head.new ≡
        (perform_reply (state_of table.old journal.old head.old) (changes (takes_out x))).state }
{
    make_change(table, journal, head, Change::TakeOut(x))
}

// The edges, or the vertices, of a and b become one.
pub fn join(
    table: &mut [u16],
    journal: &mut [u16],
    head: &mut Head,
    d: Dimension,
    a: u32,
    b: u32,
) -> Result<(), Refusal>
    ensures value { reply result ≡
        (perform_reply (state_of table.old journal.old head.old) (changes (joins (dimension_of d) a b))).number }
    ensures state { state_of table.new journal.new head.new ≡
        (perform_reply (state_of table.old journal.old head.old) (changes (joins (dimension_of d) a b))).state }
{
    // A match: a change has a variant for each dimension.
    match d {
        Dimension::Edge => make_change(table, journal, head, Change::EdgeJoin(a, b)),
        Dimension::Vertex => make_change(table, journal, head, Change::VertexJoin(a, b)),
    }
}

// The edge, or the vertex, of a and b becomes two, one with a and one with b.
pub fn cut(
    table: &mut [u16],
    journal: &mut [u16],
    head: &mut Head,
    d: Dimension,
    a: u32,
    b: u32,
) -> Result<(), Refusal>
    ensures value { reply result ≡
        (perform_reply (state_of table.old journal.old head.old) (changes (cuts (dimension_of d) a b))).number }
    ensures state { state_of table.new journal.new head.new ≡
        (perform_reply (state_of table.old journal.old head.old) (changes (cuts (dimension_of d) a b))).state }
{
    // A match: a change has a variant for each dimension.
    match d {
        Dimension::Edge => make_change(table, journal, head, Change::EdgeCut(a, b)),
        Dimension::Vertex => make_change(table, journal, head, Change::VertexCut(a, b)),
    }
}

// A RING, lent as a list of words. The entries of all its cuts fit, or nothing changes. Like `make_change`, but for the
// machine's method and its argument. One function for both would take these as a closure, and require of it that the
// machine keeps its three references. A function that makes the machine alone was tried: it has seven clauses, since
// its callers must know which references the machine holds, and leaves a goal in each of the two.

#[tactic(auto, using(crate::proofs::Replies::performing))]
pub fn ring_cut(
    table: &mut [u16],
    journal: &mut [u16],
    head: &mut Head,
    ring: &[u16],
) -> Result<(), Refusal>
    ensures value { reply result ≡
        (perform_reply (state_of table.old journal.old head.old) (cuts_ring ring.now)).number }
    ensures state { state_of table.new journal.new head.new ≡
        (perform_reply (state_of table.old journal.old head.old) (cuts_ring ring.now)).state }
{
    judge_state(table, journal, head)?;
    let mut machine = JournaledTable {
        table,
        journal,
        used: &mut head.length,
    };
    machine.cut_ring(ring)
}

// A TAPE, command by command. The first refused one stops the run; those before it stay, with their entries.

#[tactic(auto, using(crate::proofs::Replies::playing))]
pub fn play(
    table: &mut [u16],
    journal: &mut [u16],
    head: &mut Head,
    tape: &[u8],
) -> Result<u32, Stopped>
    ensures value { run_reply result ≡
        told_of (play_reply (state_of table.old journal.old head.old) tape.now) }
    ensures state { state_of table.new journal.new head.new ≡
        (play_reply (state_of table.old journal.old head.old) tape.now).state }
{
    judge_tape(tape)?;
    judge_state(table, journal, head)?;
    run_tape(table, journal, &mut head.length, tape)
}

// NAMED STATES

// Sets checkpoint c at the head's length, or moves it there. No table is lent, so the answer is the same for any.
#[tactic(auto, using(crate::proofs::Replies::setting))]
pub fn set_checkpoint(journal: &[u16], head: &mut Head, c: u32) -> Result<(), Refusal>
    ensures value { (w : Table) → reply result ≡
        (checkpoint_reply (state_of w journal.now head.old) c).number }
    ensures head { (w : Table) → state_of w journal.now head.new ≡
        (checkpoint_reply (state_of w journal.now head.old) c).state }
{
    head.judge(journal)?;
    head.set_checkpoint(c)
}

// Goes back to checkpoint c: undoes the changes since then, the latest first, and drops the checkpoints set later. An
// entry that is no change, or that cannot be undone, stops it by 17, undo unfit; what was undone before stays undone.
// Answers how many changes were undone.
pub fn go_back(table: &mut [u16], journal: &[u16], head: &mut Head, c: u32) -> Result<u32, Stopped>
    ensures value { run_reply result ≡
        told_of (back_reply (state_of table.old journal.now head.old) c) }
    ensures state { state_of table.new journal.now head.new ≡
        (back_reply (state_of table.old journal.now head.old) c).state }
{
    judge_state(table, journal, head)?;
    let to = head.checkpoint(c).ok_or(Refusal::NoMark)?;
    let used = head.length;
    let went = undo::undo_back(table, journal, used, to);
    let (Ok(undone)
    | Err(
        Stopped {
            accepted: undone,
            ..
        },
    )) = went;
    head.cut_back(used - undone);
    went
}
