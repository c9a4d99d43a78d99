// The limits of tables, rings, tapes and journals, and the places of a dart's words. Each is named here and nowhere
// else; specs/Limits has the same names for the definitions.

// Words of each dart.
pub const WORDS_PER_DART: usize = 4;

// The places of the words that hold the hypermap: successor and predecessor in each dimension.
pub const EDGE_NEXT: usize = 0;

pub const EDGE_BACK: usize = 1;

pub const VERTEX_NEXT: usize = 2;

pub const VERTEX_BACK: usize = 3;

// Words that one change alters.
pub const WORDS_PER_CHANGE: u32 = 4;

// The most darts that a table has room for, and its words.
pub const MAX_CAPACITY: usize = 4096;

pub const MAX_WORDS: usize = WORDS_PER_DART * MAX_CAPACITY;

// Words of a ring's list, its double-links, and the words of a ring on a tape, which counts its double-links in a byte.
pub const MAX_RING: usize = 4096;

pub const MAX_DOUBLE_LINKS: usize = MAX_RING / 2;

pub const MAX_TAPE_RING: usize = 510;

// Bytes of a tape.
pub const MAX_TAPE: usize = 65536;

// Bytes of the buffer that every answer of the screen fits.
pub const SCREEN_ROOM: usize = 53278;

// Words of an entry of a journal, the most entries, a checkpoint that is not set, and how many checkpoints there are.
pub const WORDS_PER_ENTRY: usize = 3;

pub const MAX_ENTRIES: usize = 4294967294;

// A number and no `Option`: a checkpoint is a `u32` in the head that C brings.
pub const UNSET: u32 = 4294967295;

pub const CHECKPOINTS: usize = 16;
