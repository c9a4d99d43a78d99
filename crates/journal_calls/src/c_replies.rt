// What C is told by the calls that bring a journal. C has no `Result`, so each struct holds a published number, and 0
// where nothing was refused. The head comes and goes by value, and is part of what is told: so each struct is made by
// `new`, with the answer and the head, where a `From` takes the answer alone.
ghost use Rattle.std.specs.Prelude.{◌≡◌};
ghost use Rattle.table.specs.Replies.{reply};
ghost use Rattle.tape.specs.Replies.{run_reply};

use journal::Head;
use table::refusals::{Refusal, number_of};
use tape::{Run, Stopped};

// Of a journaled change or ring, and of setting a checkpoint: 0 or the refusal, and the head to bring next time, which
// after a refusal is the one that came.
#[repr(C)]
#[derive(Clone, Copy)]
pub struct Journaled {
    pub number: u8,
    pub head: Head,
}

impl Journaled {
    pub fn new(answer: Result<(), Refusal>, head: Head) -> Journaled
        ensures number { result.number ≡ reply answer }
        ensures head { result.head ≡ head }
    {
        Journaled {
            number: number_of(answer),
            head,
        }
    }
}

// Of a journaled run: 0 or the refusal that stopped it, how many commands were accepted, and the head to bring next
// time.
#[repr(C)]
#[derive(Clone, Copy)]
pub struct JournaledRun {
    pub number: u8,
    pub accepted: u32,
    pub head: Head,
}

impl JournaledRun {
    pub fn new(answer: Result<u32, Stopped>, head: Head) -> JournaledRun
        ensures number { result.number ≡ (run_reply answer).number }
        ensures accepted { result.accepted ≡ (run_reply answer).accepted }
        ensures head { result.head ≡ head }
    {
        let run = Run::from(answer);
        JournaledRun {
            number: run.number,
            accepted: run.accepted,
            head,
        }
    }
}

// Of going back: 0 or the refusal that stopped it, how many changes were undone, and the head to bring next time. This
// and `JournaledRun` differ in one field's name: two types, since C reads the names.
#[repr(C)]
#[derive(Clone, Copy)]
pub struct Undone {
    pub number: u8,
    pub undone: u32,
    pub head: Head,
}

impl Undone {
    pub fn new(answer: Result<u32, Stopped>, head: Head) -> Undone
        ensures number { result.number ≡ (run_reply answer).number }
        ensures undone { result.undone ≡ (run_reply answer).accepted }
        ensures head { result.head ≡ head }
    {
        let run = Run::from(answer);
        Undone {
            number: run.number,
            undone: run.accepted,
            head,
        }
    }
}
