// One tick of a code that passed the check: the inputs in, the instructions, the outputs out.
ghost use Rattle.std.specs.Prelude.{◌≡◌, true, ◌+◌, ◌≤◌, length, take, drop};
ghost use Rattle.word.specs.Tick.{tick, stepped};
ghost use Rattle.flat.specs.Flat.{held};
ghost use Rattle.flat.specs.Code.{input_count, output_count, decode, code_tick};
ghost use Rattle.flat.specs.Check.{all_below};
ghost use Rattle.flat.specs.Steps.{Ready};

use crate::format::{HEADER, INSTRUCTIONS, WIDTH};
use crate::keys::Key;
use crate::machine::execute;
use word::index;

// The inputs into the first registers.
fn put(inputs: &[u32], registers: &mut [u32])
    requires { length inputs.now ≤ length registers.old }
    ensures { take (length inputs.now) registers.new ≡ inputs.now }
{
    // no `copy_from_slice`: its call costs more than the few inputs that a tick has
    for i in 0..inputs.len() {
        registers[i] = inputs[i];
    }
}

// What the output registers hold, which the code names from `from` on.
fn gather(code: &[u32], from: usize, registers: &[u32], outputs: &mut [u32])
    requires { (from + length outputs.old ≡ length code.now) × (all_below (length registers.now) (drop from code.now) ≡ true) }
    ensures { outputs.new ≡ held registers.now (drop from code.now) }
{
    for (i, output) in outputs.iter_mut().enumerate() {
        *output = registers[index(code[from + i])];
    }
}

// The tick; what the registers held before does not matter. Was a delay clipped in it?
pub fn run_tick(
    code: &[u32],
    keys: &[Key],
    controls: &[u32],
    inputs: &[u32],
    registers: &mut [u32],
    cells: &mut [u32],
    outputs: &mut [u32],
) -> bool
    requires ready { Ready code.now keys.now controls.now registers.old cells.old }
    requires inputs_len { (length inputs.now ≡ input_count code.now) × (length outputs.old ≡ output_count code.now) }
    ensures { code_tick (decode code.now) (tick inputs.now controls.now) cells.old ≡ stepped outputs.new cells.new result }
{
    put(inputs, registers);
    let clipped = execute(code, keys, controls, registers, cells);
    gather(
        code,
        HEADER + WIDTH * index(code[INSTRUCTIONS]),
        registers,
        outputs,
    );
    clipped
}
