// How the screen's answer lies in its buffer: ten numbers of four bytes, and then the rewritten tape.
ghost use Rattle.std.specs.Prelude.{◌≡◌, ◌++◌, ◌*◌, ◌≤◌, length, drop, map, replicate};
ghost use Rattle.table.specs.Limits.{max_capacity, max_tape, screen_room, words_per_dart};
ghost use Rattle.tape.specs.Runs.{run_of};
ghost use Rattle.writer.specs.Inner.{ScreenRoom};
ghost use Rattle.writer.specs.Screens.{four_bytes, screen_bytes, outcome_of};

use crate::write;
use parts::count;
use table::limits::MAX_WORDS;
use tape::{Run, play};

fn numbers_in_bytes(numbers: [u32; 10]) -> [[u8; 4]; 10]
    ensures { result ≡ map four_bytes numbers }
{
    numbers.map(u32::to_le_bytes)
}

pub fn write_answer(table: &[u16], run: Run, out: &mut [u8])
    requires { ScreenRoom table.now out.old }
    ensures { out.new ≡ screen_bytes (outcome_of run table.now) ++
        drop (length (screen_bytes (outcome_of run table.now))) out.old }
{
    let c = count::counts(table);
    let numbers = [
        run.number.into(),
        run.accepted,
        c.darts,
        c.edges,
        c.vertices,
        c.faces,
        c.components,
        c.characteristic.cast_unsigned(),
        c.genus,
        c.lifts,
    ];
    let head = numbers_in_bytes(numbers);
    let end = write::write_bytes(out, 0, head.as_flattened());
    write::write_tape(table, &mut out[end..]).unwrap();
}

// A run on an empty table of the greatest capacity, and its answer. Never inlined: its frame is large, and a function
// may not return early ahead of such a frame (docs/DECISIONS.md, "The screen's table in a function of its own").
#[inline(never)]
pub fn play_and_answer(tape: &[u8], out: &mut [u8])
    requires short { length tape.now ≤ max_tape }
    requires room { screen_room ≤ length out.old }
    ensures { out.new ≡ screen_bytes (run_of (replicate (words_per_dart * max_capacity) 0) tape.now) ++
        drop (length (screen_bytes (run_of (replicate (words_per_dart * max_capacity) 0) tape.now))) out.old }
{
    let mut table = [0u16; MAX_WORDS]; // fixed memory: no heap
    let run = Run::from(play::play_table(&mut table, tape));
    write_answer(&table, run, out);
}
