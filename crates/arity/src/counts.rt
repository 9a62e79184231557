// The counts of a node, by its kind.
ghost use Rattle.std.specs.Prelude.{◌≡◌, ◌≤◌};
ghost use Rattle.word.specs.Limits.{longest_delay};
ghost use Rattle.arity.specs.Tree.{leaf};
ghost use Rattle.arity.specs.Table.{primitive_of};
ghost use Rattle.arity.specs.Kinds.{number_of};
ghost use Rattle.arity.specs.Steps.{counts_of, Joins, Joinable};

use super::kinds::Kind;
use super::rows::Row;

// The inputs, outputs and instructions of a tree; and how many cells its root owns, or a circuit has.
#[derive(Clone, Copy)]
pub struct Counts {
    pub inputs: u32,
    pub outputs: u32,
    pub instructions: u32,
    pub cells: u32,
}

// A node without children.
#[tactic(auto, unfolding(crate::specs::Tree::ins, crate::specs::Tree::outs, crate::specs::Tree::size, crate::specs::Tree::need))]
pub fn leaf_counts(kind: Kind, first: u32) -> Counts
    requires { (number_of kind ≤ 6) × (number_of kind ≡ 4 → first ≤ longest_delay) }
    ensures { result ≡ counts_of (leaf 0 (primitive_of (number_of kind) first)) }
{
    let source = Counts {
        inputs: 0,
        outputs: 1,
        instructions: 1,
        cells: 0,
    };
    match kind {
        Kind::Operation => Counts {
            // by its number, as the table has it
            inputs: word::operands(first),
            ..source
        },
        Kind::Delay => Counts {
            inputs: 2,
            cells: first + 1,
            ..source
        },
        Kind::Cable => Counts {
            inputs: 1,
            instructions: 0,
            ..source
        },
        Kind::Cut => Counts {
            inputs: 1,
            outputs: 0,
            instructions: 0,
            ..source
        },
        _ => source,
    }
}

// A node with the rows of its left and right side; an ondemand has no right.
#[tactic(auto, unfolding(crate::specs::Tree::ins, crate::specs::Tree::outs, crate::specs::Tree::size, crate::specs::Tree::need))]
pub fn joint_counts(kind: Kind, l: Row, r: Row) -> Counts
    requires { Joinable (number_of kind) l r }
    ensures { Joins (number_of kind) l r result }
{
    let sequence = Counts {
        inputs: l.inputs,
        outputs: r.outputs,
        instructions: l.instructions + r.instructions,
        cells: 0,
    };
    match kind {
        Kind::Parallel => Counts {
            inputs: l.inputs + r.inputs,
            outputs: l.outputs + r.outputs,
            ..sequence
        },
        Kind::Merge => Counts {
            instructions: sequence.instructions + (l.outputs - r.inputs),
            ..sequence
        },
        Kind::Recursion => Counts {
            inputs: l.inputs - r.outputs,
            outputs: l.outputs,
            instructions: sequence.instructions + 2 * r.inputs,
            cells: r.inputs,
        },
        Kind::Ondemand => Counts {
            inputs: l.inputs + 1,
            outputs: l.outputs,
            instructions: l.instructions + (1 + 2 * l.outputs),
            cells: l.outputs,
        },
        _ => sequence,
    }
}
