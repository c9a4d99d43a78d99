// What a tape asks of a table, counted without playing it. Inner functions: they may require that the tape is no longer
// than a tape may be.

#![tactic(auto)]

ghost use Rattle.std.specs.Prelude.{◌≡◌};

pub mod named;
pub mod tallying;

use table::refusals::Refusal;

// What is counted of the commands before: the greatest number of a dart, the commands, the peak of puts less take-outs,
// how far that difference lies below its peak now, and the changes.
#[derive(Clone, Copy, Default)]
pub struct Tally {
    pub capacity: u32,
    pub commands: u32,
    pub peak: u32,
    pub below: u32,
    pub changes: u32,
}

// What a tape needs: the least capacity, the commands, the peak and the words changed.
#[derive(Clone, Copy)]
pub struct Amounts {
    pub capacity: u32,
    pub commands: u32,
    pub peak: u32,
    pub words: u32,
}

// What C, which has no `Result`, is told: 0 and the amounts, or a refusal and zeros.
#[repr(C)]
#[derive(Clone, Copy, Default)]
pub struct Needs {
    pub number: u8,
    pub capacity: u32,
    pub commands: u32,
    pub peak: u32,
    pub words: u32,
}

impl From<Result<Amounts, Refusal>> for Needs {
    ghost use Rattle.needs.specs.Replies.{needs_in};

    ghost from_gives = { λ answer needs. needs ≡ needs_in answer };

    fn from(answer: Result<Amounts, Refusal>) -> Needs {
        match answer {
            Ok(amounts) => Needs {
                number: 0,
                capacity: amounts.capacity,
                commands: amounts.commands,
                peak: amounts.peak,
                words: amounts.words,
            },
            Err(refusal) => Needs {
                number: refusal.into(),
                ..Needs::default()
            },
        }
    }
}
