// The arity check: which tables are circuits, and the counts of their nodes.
#![tactic(auto)]

mod children;
pub mod circuit;
mod counts;
pub mod fields;
pub mod kinds;
mod node;
pub mod rows;
mod rules;

ghost use Rattle.std.specs.Prelude.{◌≡◌, length};
ghost use Rattle.arity.specs.Check.{answer_of, checked};
ghost use Rattle.arity.specs.Survey.{shape_numbers, surveyed};

use children::find_loose;
pub use counts::Counts;
use node::step;
use refusal::Refusal;
use rows::{SHAPE, row_at};
use word::limits::{MOST_NODES, NODES};

// The check, which leaves in `shape` four numbers for each node up to the first refused one: inputs, outputs, instructions and first cell.
pub fn survey(table: &[u32], shape: &mut [u32; SHAPE]) -> Result<Counts, Refusal>
    requires { length shape.old ≡ shape_numbers }
    ensures answer { answer_of result ≡ checked table.now }
    ensures rows { shape.new ≡ surveyed table.now shape.old }
{
    let count = table.len();
    if count == 0 || count % 3 != 0 {
        return Err(Refusal::WrongNodeCount(0));
    }
    let n = count / 3;
    if NODES < n {
        return Err(Refusal::WrongNodeCount(MOST_NODES));
    }
    let mut marks = [false; NODES];
    let mut cells: u32 = 0;
    for i in 0..n {
        cells = step(table, shape, &mut marks, i, cells)?;
    }
    if let Some(p) = find_loose(&marks, n) {
        return Err(Refusal::LooseNode(p as u32));
    }
    let last = row_at(shape, n - 1);
    Ok(Counts {
        inputs: last.inputs,
        outputs: last.outputs,
        instructions: last.instructions,
        cells,
    })
}

// Whether a table is a circuit, with its inputs, outputs, instructions and cells.
pub fn check(table: &[u32]) -> Result<Counts, Refusal>
    ensures { answer_of result ≡ checked table.now }
{
    let mut shape = [0u32; SHAPE];
    survey(table, &mut shape)
}
