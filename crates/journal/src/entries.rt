// Entries in the lent words, written and read. The journal and an entry's number are passed apart: a struct of both
// would be made anew for each entry, and its contract would have to say that it still holds the same journal.
// An entry's words are read and written by their places. `as_chunks` and `as_chunks_mut` were tried: the bounds were
// proved, but the proofs of what is read and of what is written did not close.
ghost use Rattle.std.specs.Prelude.{◌≡◌, ◌+◌, ◌*◌, ◌≤◌, false, length, MatchOption};
ghost use Rattle.table.specs.Limits.{words_per_entry};
ghost use Rattle.table.specs.Inner.{command_for};
ghost use Rattle.tape.specs.Tapes.{is_command};
ghost use Rattle.tape.specs.Opcodes.{byte_for};
ghost use Rattle.journal.specs.Entries.{with_entry, entry_of, entry_at};
ghost use Rattle.journal.specs.Inner.{entry, WritableChange, Records};

use crate::to_usize;
use table::Change;
use table::limits::WORDS_PER_ENTRY;
use table::words::to_word;
use tape::opcode::Opcode;

#[tactic(auto, unfolding(crate::specs::Entries::with_entry))]
pub fn write(journal: &mut [u16], n: u32, opcode: Opcode, a: u16, b: u16)
    requires { words_per_entry * n + words_per_entry ≤ length journal.old }
    ensures { journal.new ≡ with_entry journal.old n (entry (byte_for opcode) a b) }
{
    let at = WORDS_PER_ENTRY * to_usize(n);
    journal[at] = u16::from(u8::from(opcode));
    journal[at + 1] = a;
    journal[at + 2] = b;
}

#[inline(always)]
pub fn write_change(journal: &mut [u16], n: u32, change: Change)
    requires { WritableChange journal.old n (command_for change) }
    ensures { journal.new ≡ with_entry journal.old n (entry_of (command_for change)) }
{
    // A match: what differs is data, an opcode and one operand or two.
    match change {
        Change::Put(x) => write(journal, n, Opcode::Put, to_word(x), 0),
        Change::TakeOut(x) => write(journal, n, Opcode::TakeOut, to_word(x), 0),
        Change::EdgeJoin(a, b) => write(journal, n, Opcode::EdgeJoin, to_word(a), to_word(b)),
        Change::EdgeCut(a, b) => write(journal, n, Opcode::EdgeCut, to_word(a), to_word(b)),
        Change::VertexJoin(a, b) => write(journal, n, Opcode::VertexJoin, to_word(a), to_word(b)),
        Change::VertexCut(a, b) => write(journal, n, Opcode::VertexCut, to_word(a), to_word(b)),
    }
}

// The opcode that a word holds, if it holds one. `TryFrom<u16>` would stand in `tape`, where no opcode is a word.
#[tactic(auto, using(tape::proofs::Decoding::is_unknown))]
fn opcode_in(word: u16) -> Option<Opcode>
    ensures { MatchOption result (is_command word ≡ false) (λ opcode. word ≡ byte_for opcode) }
{
    let byte = u8::try_from(word).ok()?;
    Opcode::try_from(byte).ok()
}

// The change of a byte and two operands; none where the byte is no change's, or an operand that it lacks is not 0.
#[tactic(auto, unfolding(crate::specs::Entries::is_change, crate::specs::Entries::command_in))]
fn change_of(byte: u16, a: u32, b: u32) -> Option<Change>
    ensures { Records (entry byte a b) result }
{
    // A match: each change has a variant of its own.
    match opcode_in(byte)? {
        Opcode::Put => (b == 0).then_some(Change::Put(a)),
        Opcode::TakeOut => (b == 0).then_some(Change::TakeOut(a)),
        Opcode::EdgeJoin => Some(Change::EdgeJoin(a, b)),
        Opcode::EdgeCut => Some(Change::EdgeCut(a, b)),
        Opcode::VertexJoin => Some(Change::VertexJoin(a, b)),
        Opcode::VertexCut => Some(Change::VertexCut(a, b)),
        Opcode::Report | Opcode::RingCut => None,
    }
}

// The change that entry n records.
#[tactic(auto, unfolding(crate::specs::Entries::entry_at))]
pub fn change_at(journal: &[u16], n: u32) -> Option<Change>
    requires { words_per_entry * n + words_per_entry ≤ length journal.now }
    ensures { Records (entry_at journal.now n) result }
{
    let at = WORDS_PER_ENTRY * to_usize(n);
    change_of(
        journal[at],
        u32::from(journal[at + 1]),
        u32::from(journal[at + 2]),
    )
}
