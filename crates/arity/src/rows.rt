// The rows of a survey: four numbers a node.
ghost use Rattle.std.specs.Prelude.{◌≡◌, ◌<◌};
ghost use Rattle.word.specs.Limits.{most_nodes};
ghost use Rattle.arity.specs.Survey.{row_at, put_row};

use word::index;
use word::limits::NODES;

// The numbers of a shape. They stay numbers: what `survey` promises of the lent buffer is said of each number.
pub const SHAPE: usize = 4 * NODES;

// The inputs, outputs and instructions of a node's tree, and its first cell: no `Counts`, whose fourth is a count.
#[derive(Clone, Copy)]
pub struct Row {
    pub inputs: u32,
    pub outputs: u32,
    pub instructions: u32,
    pub cell: u32,
}

// The row of a node in a shape.
pub fn row_at(shape: &[u32; SHAPE], node: usize) -> Row
    requires { node < most_nodes }
    ensures { result ≡ row_at shape.now node }
{
    Row {
        inputs: shape[4 * node],
        outputs: shape[4 * node + 1],
        instructions: shape[4 * node + 2],
        cell: shape[4 * node + 3],
    }
}

// One number of a row, where `row_at` reads four.
pub fn inputs_of(shape: &[u32; SHAPE], node: usize) -> usize
    requires { node < most_nodes }
    ensures { result ≡ (row_at shape.now node).inputs }
{
    index(shape[4 * node])
}

pub fn outputs_of(shape: &[u32; SHAPE], node: usize) -> usize
    requires { node < most_nodes }
    ensures { result ≡ (row_at shape.now node).outputs }
{
    index(shape[4 * node + 1])
}

pub fn cell_of(shape: &[u32; SHAPE], node: usize) -> usize
    requires { node < most_nodes }
    ensures { result ≡ (row_at shape.now node).cell }
{
    index(shape[4 * node + 3])
}

pub fn put_row(shape: &mut [u32; SHAPE], node: usize, row: Row)
    requires { node < most_nodes }
    ensures { shape.new ≡ put_row shape.old node row }
{
    shape[4 * node] = row.inputs;
    shape[4 * node + 1] = row.outputs;
    shape[4 * node + 2] = row.instructions;
    shape[4 * node + 3] = row.cell;
}
