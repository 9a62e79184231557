// The translator: a node table into flat code.
#![tactic(auto)]

mod emit;
mod instructions;
mod merge;
mod parts;
mod place;

ghost use Rattle.std.specs.Prelude.{◌≡◌, [], ◌∷◌, ◌≤◌, length, drop};
ghost use Rattle.cells.specs.Cells.{store};
ghost use Rattle.flat.specs.Code.{header};
ghost use Rattle.translator.specs.Translated.{translated};
ghost use Rattle.refusal.specs.Answer.{answer_of};
ghost use Rattle.refusal.specs.Outcome.{outcome};
ghost use Rattle.translator.specs.Translate.{translates, translated_table, Headed, Counted};

use arity::circuit::Circuit;
use arity::rows::SHAPE;
use arity::{Counts, survey};
use beam::keep;
use emit::emit_node;
use flat::format::{CELLS, HEADER, INPUTS, INSTRUCTIONS, OUTPUTS, WIDTH};
use place::{Place, Progress, ascending};
use refusal::Refusal;
use word::index;
use word::limits::{MOST_CELLS, MOST_INSTRUCTIONS};

// Inputs, outputs, instructions and cells.
fn put_header(code: &mut [u32], counts: Counts)
    requires { header ≤ length code.old }
    ensures { code.new ≡ store 0 (counts.inputs ∷ counts.outputs ∷ counts.instructions ∷ counts.cells ∷ []) code.old }
{
    code[INPUTS] = counts.inputs;
    code[OUTPUTS] = counts.outputs;
    code[INSTRUCTIONS] = counts.instructions;
    code[CELLS] = counts.cells;
}

// The instructions of a circuit behind its header, and its output registers.
fn put_circuit(circuit: &Circuit, counts: Counts, code: &mut [u32])
    requires { Headed circuit.now counts code.old }
    ensures { code.new ≡ store header (drop header (translated circuit.now)) code.old }
{
    let first = Progress {
        regs: ascending(0, index(counts.inputs)),
        place: Place {
            next: counts.inputs,
            at: HEADER,
        },
    };
    let root = circuit.nodes() - 1;
    let end = emit_node(circuit, root, first, code);
    keep(code, end.place.at, index(counts.outputs), end.regs);
}

// The code of an accepted table: refusal 10, then 11, then 12; else its numbers.
fn translate_circuit(circuit: &Circuit, counts: Counts, code: &mut [u32]) -> Result<u32, Refusal>
    requires { Counted circuit.now counts }
    ensures { outcome (answer_of result) code.new ≡ translates circuit.now code.old }
{
    if MOST_INSTRUCTIONS < counts.instructions {
        return Err(Refusal::TooManyInstructions);
    }
    if MOST_CELLS < counts.cells {
        return Err(Refusal::TooManyCells);
    }
    let total = HEADER + WIDTH * index(counts.instructions) + index(counts.outputs);
    if code.len() < total {
        return Err(Refusal::ShortBuffer);
    }
    put_header(code, counts);
    put_circuit(circuit, counts, code);
    Ok(total as u32)
}

// The flat code of a table: the table's refusals, then 10, 11 and 12; else the count of its numbers.
pub fn translate(table: &[u32], code: &mut [u32]) -> Result<u32, Refusal>
    ensures { outcome (answer_of result) code.new ≡ translated_table table.now code.old }
{
    let mut shape = [0u32; SHAPE];
    let counts = survey(table, &mut shape)?;
    translate_circuit(&Circuit::new(table, &shape), counts, code)
}
