// The greatest of the numbers that a command names, whatever they are.
ghost use Rattle.std.specs.Prelude.{◌≡◌, ◌≤◌};
ghost use Rattle.table.specs.Limits.{max_tape_ring};
ghost use Rattle.tape.specs.Tapes.{numbers_from};
ghost use Rattle.needs.specs.Amounts.{greatest};

use tape::decode;

// The greatest of n numbers of a tape from its third byte on.
pub fn greatest_number(tape: &[u8], n: usize) -> u16
    requires { n ≤ max_tape_ring }
    ensures { result ≡ greatest (numbers_from n 2 tape.now) }
{
    (0..n)
        .map(|k| decode::number_at(tape, 2 + 2 * k))
        .max()
        .unwrap_or(0)
}
