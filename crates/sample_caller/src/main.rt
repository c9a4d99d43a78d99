// A Rattle caller of the kernel: it builds document 01's square on a table of its own, looks at darts, and cuts rings
// that it lends as records, accepted and refused. A line tells each call and what it answered.

#![tactic(auto)]

use kernel::{Dimension, Refusal, join, look, put};
use records::{DoubleLink, ring_cut_records};
use std::io;
use table::limits::WORDS_PER_DART;

// Room for five darts. The square has four, so the fifth is absent, and a sixth is off the table.
const WORDS: usize = 5 * WORDS_PER_DART;

// What a change or a ring cut answered, at the end of its line.
fn write_answer(rt: &impl Print, answer: Result<(), Refusal>) -> io::Result<()> {
    match answer {
        Ok(()) => println!(rt; ": ok"),
        Err(refusal) => println!(rt; ": refused {refusal}"),
    }
}

fn tell_put(rt: &impl Print, table: &mut [u16], x: u32) -> io::Result<()> {
    print!(rt; "put {x}")?;
    write_answer(rt, put(table, x))
}

fn tell_join(rt: &impl Print, table: &mut [u16], d: Dimension, a: u32, b: u32) -> io::Result<()> {
    // A match: the words are literals of `print!`.
    match d {
        Dimension::Edge => print!(rt; "tie join {a} {b}")?,
        Dimension::Vertex => print!(rt; "cell join {a} {b}")?,
    }
    write_answer(rt, join(table, d, a, b))
}

fn write_words(rt: &impl Print, words: &[u16]) -> io::Result<()> {
    for word in words {
        print!(rt; " {word}")?;
    }
    Ok(())
}

fn tell_look(rt: &impl Print, table: &[u16], x: u32) -> io::Result<()> {
    print!(rt; "look {x}:")?;
    let words = look(table, x);
    if words.is_empty() {
        print!(rt; " empty")?;
    }
    write_words(rt, words)?;
    println!(rt)
}

// The pairs are printed here and nowhere else, so `DoubleLink` has no `Display`.
fn tell_cut(rt: &impl Print, table: &mut [u16], ring: [DoubleLink; 2]) -> io::Result<()> {
    print!(rt; "ring")?;
    for link in &ring {
        print!(rt; " {} {}", link.first, link.second)?;
    }
    write_answer(rt, ring_cut_records(table, &ring))
}

fn build_square(rt: &impl Print, table: &mut [u16]) -> io::Result<()> {
    for x in 1..=4 {
        tell_put(rt, table, x)?;
    }
    tell_join(rt, table, Dimension::Edge, 1, 2)?;
    tell_join(rt, table, Dimension::Edge, 3, 4)?;
    tell_join(rt, table, Dimension::Vertex, 1, 3)?;
    tell_join(rt, table, Dimension::Vertex, 2, 4)
}

fn look_at_all(rt: &impl Print, table: &[u16]) -> io::Result<()> {
    for x in [1, 2, 3, 4, 5, 6, 0] {
        tell_look(rt, table, x)?;
    }
    Ok(())
}

fn link(first: u16, second: u16) -> DoubleLink {
    DoubleLink { first, second }
}

// The ring of the square.
fn square_ring() -> [DoubleLink; 2] {
    [link(1, 2), link(3, 4)]
}

// Lists that are no rings of the square, by the rising number of their refusals.
fn cut_refused(rt: &impl Print, table: &mut [u16]) -> io::Result<()> {
    let rings = [
        [link(1, 2), link(3, 6)],
        [link(1, 2), link(3, 5)],
        [link(1, 3), link(2, 4)],
        [link(1, 1), link(3, 4)],
        [link(1, 2), link(2, 1)],
        [link(1, 2), link(4, 3)],
    ];
    for ring in rings {
        tell_cut(rt, table, ring)?;
    }
    Ok(())
}

// A look at a table that each call refuses, and a ring cut in it.
fn try_refused_table(rt: &impl Print, title: &str, table: &mut [u16]) -> io::Result<()> {
    println!(rt; "{title}")?;
    tell_look(rt, table, 1)?;
    tell_cut(rt, table, square_ring())
}

fn main(rt: HostRuntime) -> io::Result<()> {
    let mut table = [0u16; WORDS]; // fixed memory: no heap
    println!(rt; "the square")?;
    build_square(&rt, &mut table)?;
    look_at_all(&rt, &table)?;
    println!(rt; "refused rings, and the same plan")?;
    cut_refused(&rt, &mut table)?;
    look_at_all(&rt, &table)?;
    println!(rt; "the ring of the square, twice")?;
    tell_cut(&rt, &mut table, square_ring())?;
    look_at_all(&rt, &table)?;
    tell_cut(&rt, &mut table, square_ring())?;
    let mut short = [0u16; 3]; // fixed memory: no heap
    try_refused_table(&rt, "a table of 3 words", &mut short)?;
    // Dart 1 is its own successor but not its own predecessor.
    let mut bent = [0u16; WORDS_PER_DART]; // fixed memory: no heap
    bent[0] = 1;
    try_refused_table(&rt, "a bent table", &mut bent)
}
