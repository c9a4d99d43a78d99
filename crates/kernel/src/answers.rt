// What C is told of a call's answer: a refusal and zeros, or 0 and what was asked.
ghost use Rattle.std.specs.Prelude.{◌≡◌};
ghost use Rattle.table.specs.Replies.{number};
ghost use Rattle.kernel.specs.Calls.{refused_answer};
ghost use Rattle.kernel.specs.Replies.{totals_reply, count_reply, shared_reply};

use crate::{Answer, Totals};
use parts::Counts;
use table::refusals::Refusal;

// The numbers of a report.
impl From<Result<Counts, Refusal>> for Totals {
    ghost from_gives = { λ answer totals. totals ≡ totals_reply answer };

    fn from(answer: Result<Counts, Refusal>) -> Totals {
        match answer {
            Ok(c) => Totals {
                number: 0,
                darts: c.darts,
                edges: c.edges,
                vertices: c.vertices,
                faces: c.faces,
                components: c.components,
                characteristic: c.characteristic,
                genus: c.genus,
                lifts: c.lifts,
            },
            Err(refusal) => Totals {
                number: refusal.into(),
                ..Totals::default()
            },
        }
    }
}

// A refusal.
impl From<Refusal> for Answer {
    ghost from_gives = { λ refusal told. told ≡ refused_answer (number refusal) };

    fn from(refusal: Refusal) -> Answer {
        Answer {
            number: refusal.into(),
            ..Answer::default()
        }
    }
}

// A count.
impl From<Result<u32, Refusal>> for Answer {
    ghost from_gives = { λ answer told. told ≡ count_reply answer };

    fn from(answer: Result<u32, Refusal>) -> Answer {
        match answer {
            Ok(count) => Answer {
                count,
                ..Answer::default()
            },
            Err(refusal) => refusal.into(),
        }
    }
}

// Whether two darts share a part, and how far round it one is from the other.
impl From<Result<Option<u16>, Refusal>> for Answer {
    ghost from_gives = { λ answer told. told ≡ shared_reply answer };

    fn from(answer: Result<Option<u16>, Refusal>) -> Answer {
        match answer {
            Ok(steps) => Answer {
                number: 0,
                yes: steps.is_some(),
                count: steps.unwrap_or(0).into(),
            },
            Err(refusal) => refusal.into(),
        }
    }
}
