// The decoder: reads the first command of a tape whole, before any operand is judged.
ghost use Rattle.std.specs.Prelude.{◌≡◌, ◌+◌, ◌*◌, ◌^◌, ◌≤◌, ◌<◌, get_or, length};
ghost use Rattle.table.specs.Limits.{max_tape_ring};
ghost use Rattle.tape.specs.Tapes.{byte_of, command_size, number_at, numbers_from};
ghost use Rattle.tape.specs.Opcodes.{byte_for};
ghost use Rattle.tape.specs.Inner.{HasOperands, Reads};
ghost use Rattle.tape.specs.declared.Instruction.TheVariants as instruction;

use crate::Instruction;
use crate::opcode::Opcode;
use table::Change;
use table::limits::MAX_TAPE_RING;
use table::refusals::Refusal;

// A byte of the tape, 0 past its end: docs/DECISIONS.md, "Bytes past the end of a tape".
fn byte_at(tape: &[u8], i: usize) -> u8
    ensures { result ≡ get_or tape.now i 0 }
{
    tape.get(i).copied().unwrap_or(0)
}

// The number in two bytes, low byte first.
#[tactic(auto, unfolding(crate::specs::Tapes::number_at))]
pub fn number_at(tape: &[u8], i: usize) -> u16
    requires { i + 1 < 2 ^ 64 }
    ensures { result ≡ number_at tape.now i }
{
    u16::from_le_bytes([byte_at(tape, i), byte_at(tape, i + 1)])
}

// The numbers of a tape from a place on, as many as there are words to fill. Read by their places: a number past the
// tape's end is 0, where the chunks of a slice would end.
#[tactic(auto, using(crate::proofs::Decoding::fills_all))]
pub fn read_numbers(tape: &[u8], from: usize, words: &mut [u16])
    requires { (from ≤ 2) × (length words.old ≤ max_tape_ring) }
    ensures { words.new ≡ numbers_from (length words.old) from tape.now }
{
    for (k, word) in words.iter_mut().enumerate() {
        *word = number_at(tape, from + 2 * k);
    }
}

// The darts of a ring of n double-links, which stand after its count on the tape. Answers the first 2n of the words,
// into which they are read.
pub fn read_ring<'a>(tape: &[u8], n: u8, words: &'a mut [u16; MAX_TAPE_RING]) -> &'a [u16]
    ensures { result.now ≡ numbers_from (2 * n) 2 tape.now }
{
    let ring = &mut words[..2 * usize::from(n)];
    read_numbers(tape, 2, ring);
    ring
}

// The N numbers after a command's byte.
fn operands<const N: usize>(tape: &[u8]) -> Result<[u16; N], Refusal>
    requires { N ≤ 2 }
    ensures { HasOperands tape.now N result }
{
    if tape.len() < 1 + 2 * N {
        return Err(Refusal::TornCommand);
    }
    let mut numbers = [0; N]; // fixed memory: no heap
    read_numbers(tape, 1, &mut numbers);
    Ok(numbers)
}

// A change that has been read whole, with the number of its bytes.
fn change(change: Change, opcode: Opcode) -> Result<(Instruction, usize), Refusal>
    ensures { result ≡ Ok (instruction.Change change, command_size (byte_for opcode)) }
{
    Ok((Instruction::Change(change), opcode.size()))
}

// A ring is its count of double-links here, and its pairs stay on the tape.
fn ring(tape: &[u8]) -> Result<(Instruction, usize), Refusal>
    requires { byte_of tape.now ≡ 8 }
    ensures { Reads tape.now result }
{
    let n = byte_at(tape, 1);
    let size = Opcode::RingCut.size() + 4 * usize::from(n);
    if tape.len() < size {
        return Err(Refusal::TornCommand);
    }
    Ok((Instruction::RingCut(n), size))
}

// The first command, with the number of its bytes. Its operands are read here and judged by the table. In each arm the
// compiler knows how many there are. Inlined, since each loop over a tape calls it once per command.
#[inline(always)]
pub fn read(tape: &[u8]) -> Result<(Instruction, usize), Refusal>
    ensures { Reads tape.now result }
{
    // The form that document 01 names: the enum is taken apart by `let .. else`. 15, unknown command, returns early
    // here, and 16, torn command, in the arms.
    let Ok(opcode) = Opcode::try_from(byte_at(tape, 0)) else {
        return Err(Refusal::UnknownCommand);
    };
    // The arms repeat because each has its own constructor: one function for them would take it as a closure.
    match opcode {
        Opcode::Put => {
            let [x] = operands::<1>(tape)?;
            change(Change::Put(x.into()), opcode)
        }
        Opcode::TakeOut => {
            let [x] = operands::<1>(tape)?;
            change(Change::TakeOut(x.into()), opcode)
        }
        Opcode::EdgeJoin => {
            let [a, b] = operands::<2>(tape)?;
            change(Change::EdgeJoin(a.into(), b.into()), opcode)
        }
        Opcode::EdgeCut => {
            let [a, b] = operands::<2>(tape)?;
            change(Change::EdgeCut(a.into(), b.into()), opcode)
        }
        Opcode::VertexJoin => {
            let [a, b] = operands::<2>(tape)?;
            change(Change::VertexJoin(a.into(), b.into()), opcode)
        }
        Opcode::VertexCut => {
            let [a, b] = operands::<2>(tape)?;
            change(Change::VertexCut(a.into(), b.into()), opcode)
        }
        Opcode::Report => Ok((Instruction::Report, opcode.size())),
        Opcode::RingCut => ring(tape),
    }
}
