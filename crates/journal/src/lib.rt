// A journal in lent words: the accepted changes, three words each, and a head with sixteen checkpoints to come back to.
// Inner functions: they may require a table within the capacity, and a journal of which the used entries are there.

#![tactic(auto)]

ghost use Rattle.std.specs.Prelude.{◌≡◌};

mod entries;
pub mod heads;
pub mod machine;
pub mod undo;

use table::limits::CHECKPOINTS;

// How many entries are used, and for each checkpoint how many were used when it was set, or 4,294,967,295 where it is
// not set. Document 02 calls a checkpoint a mark. Document 01 names the form: an array of sixteen beside the length.
#[repr(C)]
#[derive(Clone, Copy)]
pub struct Head {
    pub checkpoints: [u32; CHECKPOINTS],
    pub length: u32,
}

// `as`: every u32 is a usize on the 64-bit target, but the library has no `From` for it.
#[inline(always)]
fn to_usize(n: u32) -> usize
    ensures { result ≡ n }
{
    n as usize
}
