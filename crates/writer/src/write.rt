// The writer of canonical tapes. The marks of both dimensions tell the least dart of each orbit and, counted, how long
// the tape is, so its room is judged before a byte is written. Linear in the table.
ghost use Rattle.std.specs.Prelude.{◌≡◌, ◌+◌, ◌*◌, ◌-◌, ◌≤◌};
ghost use Rattle.table.specs.Limits.{max_capacity};
ghost use Rattle.table.specs.Layout.{hypermap_of};
ghost use Rattle.table.specs.Commands.{puts, joins};
ghost use Rattle.table.specs.Inner.{dimension_of, WithinCapacity};
ghost use Rattle.tape.specs.Tapes.{bytes_of, tape_bytes};
ghost use Rattle.writer.specs.Canonical.{orbit_joins, joins_of, puts_of, tape_of};
ghost use Rattle.writer.specs.Inner.{HasRoom, Lays, OrbitJoinsRoom, JoinsRoom, WriterMarks, written_in, written_of};
ghost use Rattle.writer.specs.Inner.{written_leaves};

use parts::count;
use parts::marks::{mark_of, mark_orbits};
use table::limits::MAX_CAPACITY;
use table::refusals::Refusal;
use table::words::NEXT;
use table::{Dimension, Orbit, walk, words};
use tape::opcode::{OPERAND_BYTES, Opcode};

// Bytes of a put and of a join. `as`: a constant can call neither `Opcode::size` nor a `From`.
const PUT_SIZE: usize = 1 + OPERAND_BYTES[Opcode::Put as usize] as usize;

const JOIN_SIZE: usize = 1 + OPERAND_BYTES[Opcode::EdgeJoin as usize] as usize;

// COMMANDS

fn put_bytes(x: u16) -> [u8; PUT_SIZE]
    ensures { result ≡ bytes_of (puts x) }
{
    let [low, high] = x.to_le_bytes();
    [Opcode::Put.into(), low, high]
}

fn join_bytes(d: Dimension, a: u16, b: u16) -> [u8; JOIN_SIZE]
    ensures { result ≡ bytes_of (joins (dimension_of d) a b) }
{
    // A match: one opcode for each dimension.
    let opcode = match d {
        Dimension::Edge => Opcode::EdgeJoin,
        Dimension::Vertex => Opcode::VertexJoin,
    };
    let [a_low, a_high] = a.to_le_bytes();
    let [b_low, b_high] = b.to_le_bytes();
    [opcode.into(), a_low, a_high, b_low, b_high]
}

// Bytes into a buffer, from a place on; answers the place after them. The two are passed apart here and below: if a
// struct held both, each contract would have to say besides that it still holds the same buffer. With `&mut out[at..]`
// for both and a length for an answer, each caller would have to add the place.
#[tactic(auto, using(crate::proofs::Laying::lays_bytes))]
pub fn write_bytes(out: &mut [u8], at: usize, bytes: &[u8]) -> usize
    requires { HasRoom at bytes.now out.old }
    ensures { Lays at bytes.now out.old out.new result }
{
    let end = at + bytes.len();
    out[at..end].copy_from_slice(bytes);
    end
}

// PARTS of the tape

// Every dart is put.
#[tactic(auto, using(crate::proofs::Passing::passing))]
fn write_puts(table: &[u16], out: &mut [u8]) -> usize
    requires { WithinCapacity table.now × HasRoom 0 (tape_bytes (puts_of (hypermap_of table.now))) out.old }
    ensures { Lays 0 (tape_bytes (puts_of (hypermap_of table.now)))
        out.old out.new result }
{
    let mut at = 0;
    for x in 1..words::numbers_end(table) {
        if words::is_dart(table, x.into()) {
            at = write_bytes(out, at, &put_bytes(x));
        }
    }
    at
}

// x is joined to each further dart of its orbit. Buffer and place are apart, as in `write_bytes`.
fn write_orbit_joins(table: &[u16], d: Dimension, x: u16, out: &mut [u8], from: usize) -> usize
    requires { OrbitJoinsRoom table.now (dimension_of d) x from out.old }
    ensures { Lays from (tape_bytes (orbit_joins (hypermap_of table.now) (dimension_of d) x))
        out.old out.new result }
{
    let mut at = from;
    let mut y = walk::neighbour::<NEXT>(table, d, x);
    while y != x {
        at = write_bytes(out, at, &join_bytes(d, x, y));
        y = walk::neighbour::<NEXT>(table, d, y);
    }
    at
}

// Every orbit is joined, from its least dart. Buffer and place are apart, as in `write_bytes`.
#[tactic(auto, using(crate::proofs::Passing::passing))]
fn write_joins(table: &[u16], d: Dimension, marks: &[u16], out: &mut [u8], from: usize) -> usize
    requires { JoinsRoom table.now (dimension_of d) marks.now from out.old }
    ensures { Lays from (tape_bytes (joins_of (hypermap_of table.now) (dimension_of d)))
        out.old out.new result }
{
    let mut at = from;
    for x in 1..words::numbers_end(table) {
        if mark_of(marks, x) == x {
            at = write_orbit_joins(table, d, x, out, at);
        }
    }
    at
}

// THE TAPE

// Answers its length: a put for each dart, and in each dimension a join for each dart that is not its orbit's least.
#[tactic(auto, unfolding(tape::specs::Tapes::command_size, tape::specs::Tapes::operand_sizes))]
fn tape_size(darts: u32, edges: u32, vertices: u32) -> u32
    requires { (darts ≤ max_capacity) × (edges ≤ darts) × (vertices ≤ darts) }
    ensures { result + 5 * (edges + vertices) ≡ 13 * darts }
{
    let joins = (darts - edges) + (darts - vertices);
    // `as`: the library has no `From<usize>` for `u32`, and `try_from` adds a branch that panics.
    Opcode::Put.size() as u32 * darts + Opcode::EdgeJoin.size() as u32 * joins
}

// Lent a mark for each number in each dimension. Answers the number of bytes written.
fn write_marked(
    table: &[u16],
    edge_marks: &mut [u16],
    vertex_marks: &mut [u16],
    out: &mut [u8],
) -> Result<u32, Refusal>
    requires { WriterMarks table.now edge_marks.old vertex_marks.old }
    ensures value { written_in result ≡ written_of (tape_of table.now) out.old }
    ensures out { out.new ≡ written_leaves (tape_of table.now) out.old }
{
    let darts = count::count_darts(table);
    let edges = mark_orbits(table, Orbit::Edge, edge_marks);
    let vertices = mark_orbits(table, Orbit::Vertex, vertex_marks);
    let size = tape_size(darts, edges, vertices);
    // `as`: the library has no `From<u32>` for `usize`, and `try_from` adds a branch that panics.
    if out.len() < size as usize {
        return Err(Refusal::ShortRoom);
    }
    let puts = write_puts(table, out);
    let joins = write_joins(table, Dimension::Edge, edge_marks, out, puts);
    write_joins(table, Dimension::Vertex, vertex_marks, out, joins);
    Ok(size)
}

// The canonical tape. Answers the number of bytes written.
pub fn write_tape(table: &[u16], out: &mut [u8]) -> Result<u32, Refusal>
    requires { WithinCapacity table.now }
    ensures value { written_in result ≡ written_of (tape_of table.now) out.old }
    ensures out { out.new ≡ written_leaves (tape_of table.now) out.old }
{
    let n = words::capacity_of(table);
    let mut edge_marks = [0u16; MAX_CAPACITY]; // fixed memory: no heap
    let mut vertex_marks = [0u16; MAX_CAPACITY]; // fixed memory: no heap
    write_marked(table, &mut edge_marks[..n], &mut vertex_marks[..n], out)
}
