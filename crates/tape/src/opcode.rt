// The commands of a tape by their first byte, and the bytes of each: one place, for the decoder and the writer.
ghost use Rattle.std.specs.Prelude.{◌≡◌};
ghost use Rattle.tape.specs.Tapes.{command_size};
ghost use Rattle.tape.specs.Opcodes.{byte_for, IsOpcode};

use table::refusals::Refusal;

// Operand bytes by command byte: document 01 asks for one constant table. No command has the byte 0; a ring's entry is
// the one byte before its pairs.
pub const OPERAND_BYTES: [u8; 9] = [0, 2, 2, 4, 4, 4, 4, 0, 1];

#[derive(Clone, Copy, Debug, PartialEq, Eq)]
pub enum Opcode {
    Put = 1,
    TakeOut = 2,
    EdgeJoin = 3,
    EdgeCut = 4,
    VertexJoin = 5,
    VertexCut = 6,
    Report = 7,
    RingCut = 8,
}

impl From<Opcode> for u8 {
    ghost from_gives = { λ opcode byte. byte ≡ byte_for opcode };

    fn from(opcode: Opcode) -> u8 {
        // `as`: the discriminants are the command bytes.
        opcode as u8
    }
}

impl TryFrom<u8> for Opcode {
    type Error = Refusal;

    ghost try_from_gives = { IsOpcode };

    // Inlined into the decoder, so that the match there branches on the byte itself and does not test the opcode again.
    #[inline(always)]
    #[tactic(auto, using(crate::proofs::Decoding::is_unknown))]
    fn try_from(byte: u8) -> Result<Opcode, Refusal> {
        // A match: the library makes no enum of a number.
        match byte {
            1 => Ok(Opcode::Put),
            2 => Ok(Opcode::TakeOut),
            3 => Ok(Opcode::EdgeJoin),
            4 => Ok(Opcode::EdgeCut),
            5 => Ok(Opcode::VertexJoin),
            6 => Ok(Opcode::VertexCut),
            7 => Ok(Opcode::Report),
            8 => Ok(Opcode::RingCut),
            _ => Err(Refusal::UnknownCommand),
        }
    }
}

impl Opcode {
    // How many bytes a command has: the command byte and its operands. A ring's operand is the byte that counts its
    // double-links; the pairs after that byte are not included.
    #[inline(always)]
    #[tactic(auto, unfolding(crate::specs::Tapes::command_size, crate::specs::Tapes::operand_sizes))]
    pub fn size(self) -> usize
        ensures { result ≡ command_size (byte_for self) }
    {
        1 + usize::from(OPERAND_BYTES[usize::from(u8::from(self))])
    }
}
