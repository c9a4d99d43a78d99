// A lent table: its words, whether it holds a hypermap, walks, changes, and refusals. Inner functions: they may require
// a table that holds a hypermap and is within the capacity.

#![tactic(auto)]

ghost use Rattle.std.specs.Prelude.{◌≡◌};
ghost use Rattle.table.specs.Commands.{opposite};
ghost use Rattle.table.specs.Inner.{command_for};

pub mod changes;
pub mod hypermap_test;
pub mod limits;
pub mod refusals;
pub mod store;
pub mod walk;
pub mod words;

// The two dimensions of a hypermap. Document 01: tie and cell.
#[derive(Clone, Copy)]
pub enum Dimension {
    Edge,
    Vertex,
}

// The three kinds of orbit. Document 01: tie, cell and gap.
#[derive(Clone, Copy)]
pub enum Orbit {
    Edge,
    Vertex,
    Face,
}

// The orbits of a dimension.
impl From<Dimension> for Orbit {
    ghost use Rattle.hypermap.specs.Hypermap.{of};
    ghost use Rattle.table.specs.Inner.{dimension_of, kind_of};

    ghost from_gives = { λ d orbit. kind_of orbit ≡ of (dimension_of d) };

    fn from(d: Dimension) -> Orbit {
        // A match: one value for each variant.
        match d {
            Dimension::Edge => Orbit::Edge,
            Dimension::Vertex => Orbit::Vertex,
        }
    }
}

// A change of a table: a variant for each command byte that changes one, so that the dimension is known in its arm.
// Numbers come from outside, in 32 bits; whether they name darts is judged before they become words.
#[derive(Clone, Copy)]
pub enum Change {
    Put(u32),
    TakeOut(u32),
    EdgeJoin(u32, u32),
    EdgeCut(u32, u32),
    VertexJoin(u32, u32),
    VertexCut(u32, u32),
}

impl Change {
    // The change that undoes it.
    pub fn opposite(self) -> Change
        ensures { command_for result ≡ opposite (command_for self) }
    {
        // A match: each variant has an opposite of its own.
        match self {
            Change::Put(x) => Change::TakeOut(x),
            Change::TakeOut(x) => Change::Put(x),
            Change::EdgeJoin(a, b) => Change::EdgeCut(a, b),
            Change::EdgeCut(a, b) => Change::EdgeJoin(a, b),
            Change::VertexJoin(a, b) => Change::VertexCut(a, b),
            Change::VertexCut(a, b) => Change::VertexJoin(a, b),
        }
    }
}
