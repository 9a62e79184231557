// Flat code: its check and its runner.
#![tactic(auto)]

mod check;
pub mod format;
mod keys;
mod machine;
mod tick;

ghost use Rattle.std.specs.Prelude.{◌≡◌, ◌+◌};
ghost use Rattle.cells.specs.Block.{answer_of, ran_as, ticks_of, played_as, played};
ghost use Rattle.flat.specs.Code.{header, input_count, instruction_count, decode, code_tick};
ghost use Rattle.flat.specs.Run.{checks, ran};
ghost use Rattle.flat.specs.Steps.{Checked, Keys, Playable};

use cells::{Samples, block_ok};
use check::code_ok;
use format::{CELLS, INPUTS, OUTPUTS, REGISTERS};
use keys::{Key, put_keys};
use refusal::Refusal;
use tick::run_tick;
use word::{bit, index};

// The ticks of a call that is not refused, one after another, on the cells and the outputs that it needs and no more,
// with the keys of its code; in how many of them was a delay clipped?
fn play_keyed(
    code: &[u32],
    keys: &[Key],
    ticks: usize,
    inputs: &[u32],
    controls: &[u32],
    cells: &mut [u32],
    outputs: &mut [u32],
) -> u32
    requires keys { Keys code.now keys.now (input_count code.now + instruction_count code.now) header (input_count code.now) }
    requires playable { Playable code.now ticks inputs.now controls.now cells.old outputs.old }
    ensures { played (code_tick (decode code.now)) (ticks_of (input_count code.now) controls.now ticks inputs.now) cells.old
        ≡ played_as outputs.new cells.new result }
{
    let n = index(code[INPUTS]);
    let m = index(code[OUTPUTS]);
    let mut registers = [0u32; REGISTERS];
    let mut read: usize = 0;
    let mut written: usize = 0;
    let mut clips: u32 = 0;
    for i in 0..ticks {
        let read_to = read + n;
        let written_to = written + m;
        let clipped = run_tick(
            code,
            keys,
            controls,
            &inputs[read..read_to],
            &mut registers,
            cells,
            &mut outputs[written..written_to],
        );
        clips += bit(clipped);
        read = read_to;
        written = written_to;
    }
    clips
}

// The same, with the keys put together once for all its ticks.
fn play(
    code: &[u32],
    ticks: usize,
    inputs: &[u32],
    controls: &[u32],
    cells: &mut [u32],
    outputs: &mut [u32],
) -> u32
    requires { Playable code.now ticks inputs.now controls.now cells.old outputs.old }
    ensures { played (code_tick (decode code.now)) (ticks_of (input_count code.now) controls.now ticks inputs.now) cells.old
        ≡ played_as outputs.new cells.new result }
{
    let mut keys = [Key::Skip; REGISTERS];
    put_keys(code, &mut keys);
    play_keyed(code, &keys, ticks, inputs, controls, cells, outputs)
}

// A call of a code that passed the check: refusal 14, then 12; else its ticks.
fn run_checked(
    code: &[u32],
    ticks: u32,
    inputs: &[u32],
    controls: &[u32],
    cells: &mut [u32],
    outputs: &mut [u32],
) -> Result<Samples, Refusal>
    requires { Checked code.now }
    ensures { ran_as (answer_of result) cells.new outputs.new
        ≡ checks (decode code.now) ticks inputs.now controls.now cells.old outputs.old }
{
    if !block_ok(code[INPUTS], ticks, inputs, controls) {
        return Err(Refusal::WrongBlock);
    }
    let count = index(code[CELLS]);
    if cells.len() < count {
        return Err(Refusal::ShortBuffer);
    }
    let t = index(ticks);
    let total = t * index(code[OUTPUTS]);
    if outputs.len() < total {
        return Err(Refusal::ShortBuffer);
    }
    let clipped = play(
        code,
        t,
        inputs,
        controls,
        &mut cells[..count],
        &mut outputs[..total],
    );
    Ok(Samples {
        count: total as u32,
        clipped,
    })
}

// One call, with any numbers as code: refusal 13, then 14, then 12; else its output samples, and the cells after them.
pub fn run(
    code: &[u32],
    ticks: u32,
    inputs: &[u32],
    controls: &[u32],
    cells: &mut [u32],
    outputs: &mut [u32],
) -> Result<Samples, Refusal>
    ensures { ran_as (answer_of result) cells.new outputs.new
        ≡ ran code.now ticks inputs.now controls.now cells.old outputs.old }
{
    if !code_ok(code) {
        return Err(Refusal::WrongCode);
    }
    run_checked(code, ticks, inputs, controls, cells, outputs)
}
