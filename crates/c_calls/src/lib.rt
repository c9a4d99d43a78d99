// The public calls for C, thin: each passes on what it is lent to a call of the kernel, under the prefix lotskadi_, and
// tells its answer in a number or in a struct of C. The dimension and the part stand in the name, since an exported
// function takes no enum. include/lotskadi.h declares them.

#![tactic(auto)]

ghost use Rattle.std.specs.Prelude.{◌≡◌};
ghost use Rattle.hypermap.specs.Hypermap.{edge, vertex};
ghost use Rattle.table.specs.Commands.{puts, takes_out, joins, cuts};
ghost use Rattle.table.specs.declared.Orbit.TheVariants as orbit;
ghost use Rattle.parts.specs.declared.Part.TheVariants as part;
ghost use Rattle.tape.specs.Runs.{told_of};
ghost use Rattle.kernel.specs.Calls.{call_refusal, call_leaves, ring_call_refusal, ring_call_leaves, report_of};
ghost use Rattle.kernel.specs.Calls.{component_report_of, same_answer, round_answer, round_leaves, marks_answer};
ghost use Rattle.kernel.specs.Calls.{marks_leaves};
ghost use Rattle.kernel.specs.Tapes.{play_outcome, needs_answer, tape_answer, tape_leaves};
ghost use Rattle.kernel.specs.Tapes.{screen_refusal, screen_leaves};

pub mod journals;

use kernel::{Answer, Dimension, Needs, Orbit, Part, Run, Totals};
use table::refusals::number_of;

// CHANGES

#[unsafe(no_mangle)]
pub extern "C" fn lotskadi_put(table: &mut [u16], x: u32) -> u8
    ensures value { result ≡ call_refusal table.old (puts x) }
    ensures table { table.new ≡ call_leaves table.old (puts x) }
{
    number_of(kernel::put(table, x))
}

#[unsafe(no_mangle)]
pub extern "C" fn lotskadi_take_out(table: &mut [u16], x: u32) -> u8
    ensures value { result ≡ call_refusal table.old (takes_out x) }
    ensures table { table.new ≡ call_leaves table.old (takes_out x) }
{
    number_of(kernel::take_out(table, x))
}

#[unsafe(no_mangle)]
pub extern "C" fn lotskadi_edge_join(table: &mut [u16], a: u32, b: u32) -> u8
    ensures value { result ≡ call_refusal table.old (joins edge a b) }
    ensures table { table.new ≡ call_leaves table.old (joins edge a b) }
{
    number_of(kernel::join(table, Dimension::Edge, a, b))
}

#[unsafe(no_mangle)]
pub extern "C" fn lotskadi_vertex_join(table: &mut [u16], a: u32, b: u32) -> u8
    ensures value { result ≡ call_refusal table.old (joins vertex a b) }
    ensures table { table.new ≡ call_leaves table.old (joins vertex a b) }
{
    number_of(kernel::join(table, Dimension::Vertex, a, b))
}

#[unsafe(no_mangle)]
pub extern "C" fn lotskadi_edge_cut(table: &mut [u16], a: u32, b: u32) -> u8
    ensures value { result ≡ call_refusal table.old (cuts edge a b) }
    ensures table { table.new ≡ call_leaves table.old (cuts edge a b) }
{
    number_of(kernel::cut(table, Dimension::Edge, a, b))
}

#[unsafe(no_mangle)]
pub extern "C" fn lotskadi_vertex_cut(table: &mut [u16], a: u32, b: u32) -> u8
    ensures value { result ≡ call_refusal table.old (cuts vertex a b) }
    ensures table { table.new ≡ call_leaves table.old (cuts vertex a b) }
{
    number_of(kernel::cut(table, Dimension::Vertex, a, b))
}

#[unsafe(no_mangle)]
pub extern "C" fn lotskadi_ring_cut(table: &mut [u16], ring: &[u16]) -> u8
    ensures value { result ≡ ring_call_refusal table.old ring.now }
    ensures table { table.new ≡ ring_call_leaves table.old ring.now }
{
    number_of(kernel::ring_cut(table, ring))
}

// QUESTIONS

#[unsafe(no_mangle)]
pub extern "C" fn lotskadi_report(table: &[u16]) -> Totals
    ensures { result ≡ report_of table.now }
{
    kernel::report(table).into()
}

#[unsafe(no_mangle)]
pub extern "C" fn lotskadi_component_report(table: &[u16], x: u32) -> Totals
    ensures { result ≡ component_report_of table.now x }
{
    kernel::component_report(table, x).into()
}

#[unsafe(no_mangle)]
pub extern "C" fn lotskadi_same_edge(table: &[u16], a: u32, b: u32) -> Answer
    ensures { result ≡ same_answer table.now part.Edge a b }
{
    kernel::same(table, Part::Edge, a, b).into()
}

#[unsafe(no_mangle)]
pub extern "C" fn lotskadi_same_vertex(table: &[u16], a: u32, b: u32) -> Answer
    ensures { result ≡ same_answer table.now part.Vertex a b }
{
    kernel::same(table, Part::Vertex, a, b).into()
}

#[unsafe(no_mangle)]
pub extern "C" fn lotskadi_same_face(table: &[u16], a: u32, b: u32) -> Answer
    ensures { result ≡ same_answer table.now part.Face a b }
{
    kernel::same(table, Part::Face, a, b).into()
}

#[unsafe(no_mangle)]
pub extern "C" fn lotskadi_same_component(table: &[u16], a: u32, b: u32) -> Answer
    ensures { result ≡ same_answer table.now part.Component a b }
{
    kernel::same(table, Part::Component, a, b).into()
}

#[unsafe(no_mangle)]
pub extern "C" fn lotskadi_edge_round(table: &[u16], x: u32, out: &mut [u16]) -> Answer
    ensures value { result ≡ round_answer table.now orbit.Edge x out.old }
    ensures out { out.new ≡ round_leaves table.now orbit.Edge x out.old }
{
    kernel::round(table, Orbit::Edge, x, out).into()
}

#[unsafe(no_mangle)]
pub extern "C" fn lotskadi_vertex_round(table: &[u16], x: u32, out: &mut [u16]) -> Answer
    ensures value { result ≡ round_answer table.now orbit.Vertex x out.old }
    ensures out { out.new ≡ round_leaves table.now orbit.Vertex x out.old }
{
    kernel::round(table, Orbit::Vertex, x, out).into()
}

#[unsafe(no_mangle)]
pub extern "C" fn lotskadi_face_round(table: &[u16], x: u32, out: &mut [u16]) -> Answer
    ensures value { result ≡ round_answer table.now orbit.Face x out.old }
    ensures out { out.new ≡ round_leaves table.now orbit.Face x out.old }
{
    kernel::round(table, Orbit::Face, x, out).into()
}

#[unsafe(no_mangle)]
pub extern "C" fn lotskadi_component_marks(table: &[u16], out: &mut [u16]) -> Answer
    ensures value { result ≡ marks_answer table.now out.old }
    ensures out { out.new ≡ marks_leaves table.now out.old }
{
    kernel::component_marks(table, out).into()
}

// TAPES

#[unsafe(no_mangle)]
pub extern "C" fn lotskadi_play(table: &mut [u16], tape: &[u8]) -> Run
    ensures value { result ≡ told_of (play_outcome table.old tape.now) }
    ensures table { table.new ≡ (play_outcome table.old tape.now).state }
{
    kernel::play(table, tape).into()
}

#[unsafe(no_mangle)]
pub extern "C" fn lotskadi_tape_needs(tape: &[u8]) -> Needs
    ensures { result ≡ needs_answer tape.now }
{
    kernel::tape_needs(tape).into()
}

#[unsafe(no_mangle)]
pub extern "C" fn lotskadi_write_tape(table: &[u16], out: &mut [u8]) -> Answer
    ensures value { result ≡ tape_answer table.now out.old }
    ensures out { out.new ≡ tape_leaves table.now out.old }
{
    kernel::write_tape(table, out).into()
}

#[unsafe(no_mangle)]
pub extern "C" fn lotskadi_screen(tape: &[u8], out: &mut [u8]) -> u8
    ensures value { result ≡ screen_refusal tape.now out.old }
    ensures out { out.new ≡ screen_leaves tape.now out.old }
{
    number_of(kernel::screen(tape, out))
}
