// The calls that bring a journal, for C: each passes on what it is lent, under the prefix lotskadi_. The head comes and
// goes by value.
ghost use Rattle.std.specs.Prelude.{◌≡◌};
ghost use Rattle.hypermap.specs.Hypermap.{edge, vertex};
ghost use Rattle.table.specs.Layout.{Table};
ghost use Rattle.table.specs.Commands.{puts, takes_out, joins, cuts};
ghost use Rattle.tape.specs.Steps.{changes, cuts_ring};
ghost use Rattle.journal_calls.specs.Calls.{state_of, perform_reply, play_reply, checkpoint_reply, back_reply};
ghost use Rattle.journal_calls.specs.Calls.{journaled_of, journaled_run_of, undone_of};

use journal_calls::Head;
use journal_calls::c_replies::{Journaled, JournaledRun, Undone};
use table::Change;

// CHANGES: the first six differ in the change alone, and the seventh in the call and its argument. Each stays a
// function with clauses of its own, since C calls it by its name, with its numbers.

#[unsafe(no_mangle)]
pub extern "C" fn lotskadi_journal_put(
    table: &mut [u16],
    journal: &mut [u16],
    mut head: Head,
    x: u32,
) -> Journaled
    ensures value { result ≡ journaled_of (perform_reply
        (state_of table.old journal.old head) (changes (puts x))) }
    ensures table { table.new ≡ (perform_reply
        (state_of table.old journal.old head) (changes (puts x))).state.table }
    ensures journal { journal.new ≡ (perform_reply
        (state_of table.old journal.old head) (changes (puts x))).state.journal }
{
    let answer = journal_calls::make_change(table, journal, &mut head, Change::Put(x));
    Journaled::new(answer, head)
}

#[unsafe(no_mangle)]
pub extern "C" fn lotskadi_journal_take_out(
    table: &mut [u16],
    journal: &mut [u16],
    mut head: Head,
    x: u32,
) -> Journaled
    ensures value { result ≡ journaled_of (perform_reply
        (state_of table.old journal.old head) (changes (takes_out x))) }
    ensures table { table.new ≡ (perform_reply
        (state_of table.old journal.old head) (changes (takes_out x))).state.table }
    ensures journal { journal.new ≡ (perform_reply
        (state_of table.old journal.old head) (changes (takes_out x))).state.journal }
{
    let answer = journal_calls::make_change(table, journal, &mut head, Change::TakeOut(x));
    Journaled::new(answer, head)
}

#[unsafe(no_mangle)]
pub extern "C" fn lotskadi_journal_edge_join(
    table: &mut [u16],
    journal: &mut [u16],
    mut head: Head,
    a: u32,
    b: u32,
) -> Journaled
    ensures value { result ≡ journaled_of (perform_reply
        (state_of table.old journal.old head) (changes (joins edge a b))) }
    ensures table { table.new ≡ (perform_reply
        (state_of table.old journal.old head) (changes (joins edge a b))).state.table }
    ensures journal { journal.new ≡ (perform_reply
        (state_of table.old journal.old head) (changes (joins edge a b))).state.journal }
{
    let answer = journal_calls::make_change(table, journal, &mut head, Change::EdgeJoin(a, b));
    Journaled::new(answer, head)
}

#[unsafe(no_mangle)]
pub extern "C" fn lotskadi_journal_vertex_join(
    table: &mut [u16],
    journal: &mut [u16],
    mut head: Head,
    a: u32,
    b: u32,
) -> Journaled
    ensures value { result ≡ journaled_of (perform_reply
        (state_of table.old journal.old head) (changes (joins vertex a b))) }
    ensures table { table.new ≡ (perform_reply
        (state_of table.old journal.old head) (changes (joins vertex a b))).state.table }
    ensures journal { journal.new ≡ (perform_reply
        (state_of table.old journal.old head) (changes (joins vertex a b))).state.journal }
{
    let answer = journal_calls::make_change(table, journal, &mut head, Change::VertexJoin(a, b));
    Journaled::new(answer, head)
}

#[unsafe(no_mangle)]
pub extern "C" fn lotskadi_journal_edge_cut(
    table: &mut [u16],
    journal: &mut [u16],
    mut head: Head,
    a: u32,
    b: u32,
) -> Journaled
    ensures value { result ≡ journaled_of (perform_reply
        (state_of table.old journal.old head) (changes (cuts edge a b))) }
    ensures table { table.new ≡ (perform_reply
        (state_of table.old journal.old head) (changes (cuts edge a b))).state.table }
    ensures journal { journal.new ≡ (perform_reply
        (state_of table.old journal.old head) (changes (cuts edge a b))).state.journal }
{
    let answer = journal_calls::make_change(table, journal, &mut head, Change::EdgeCut(a, b));
    Journaled::new(answer, head)
}

#[unsafe(no_mangle)]
pub extern "C" fn lotskadi_journal_vertex_cut(
    table: &mut [u16],
    journal: &mut [u16],
    mut head: Head,
    a: u32,
    b: u32,
) -> Journaled
    ensures value { result ≡ journaled_of (perform_reply
        (state_of table.old journal.old head) (changes (cuts vertex a b))) }
    ensures table { table.new ≡ (perform_reply
        (state_of table.old journal.old head) (changes (cuts vertex a b))).state.table }
    ensures journal { journal.new ≡ (perform_reply
        (state_of table.old journal.old head) (changes (cuts vertex a b))).state.journal }
{
    let answer = journal_calls::make_change(table, journal, &mut head, Change::VertexCut(a, b));
    Journaled::new(answer, head)
}

#[unsafe(no_mangle)]
pub extern "C" fn lotskadi_journal_ring_cut(
    table: &mut [u16],
    journal: &mut [u16],
    mut head: Head,
    ring: &[u16],
) -> Journaled
    ensures value { result ≡ journaled_of (perform_reply
        (state_of table.old journal.old head) (cuts_ring ring.now)) }
    ensures table { table.new ≡ (perform_reply
        (state_of table.old journal.old head) (cuts_ring ring.now)).state.table }
    ensures journal { journal.new ≡ (perform_reply
        (state_of table.old journal.old head) (cuts_ring ring.now)).state.journal }
{
    let answer = journal_calls::ring_cut(table, journal, &mut head, ring);
    Journaled::new(answer, head)
}

// A TAPE

#[unsafe(no_mangle)]
pub extern "C" fn lotskadi_journal_play(
    table: &mut [u16],
    journal: &mut [u16],
    mut head: Head,
    tape: &[u8],
) -> JournaledRun
    ensures value { result ≡ journaled_run_of
        (play_reply (state_of table.old journal.old head) tape.now) }
    ensures table { table.new ≡
        (play_reply (state_of table.old journal.old head) tape.now).state.table }
    ensures journal { journal.new ≡
        (play_reply (state_of table.old journal.old head) tape.now).state.journal }
{
    let answer = journal_calls::play(table, journal, &mut head, tape);
    JournaledRun::new(answer, head)
}

// NAMED STATES

#[unsafe(no_mangle)]
pub extern "C" fn lotskadi_set_checkpoint(
    journal: &[u16],
    mut head: Head,
    checkpoint: u32,
) -> Journaled
    ensures { (w : Table) →
        result ≡ journaled_of (checkpoint_reply (state_of w journal.now head) checkpoint) }
{
    let answer = journal_calls::set_checkpoint(journal, &mut head, checkpoint);
    Journaled::new(answer, head)
}

#[unsafe(no_mangle)]
pub extern "C" fn lotskadi_go_back(
    table: &mut [u16],
    journal: &[u16],
    mut head: Head,
    checkpoint: u32,
) -> Undone
    ensures value { result ≡ undone_of (back_reply (state_of table.old journal.now head) checkpoint) }
    ensures table { table.new ≡
        (back_reply (state_of table.old journal.now head) checkpoint).state.table }
{
    let answer = journal_calls::go_back(table, journal, &mut head, checkpoint);
    Undone::new(answer, head)
}
