// The machine: what instructions do to registers and cells in one tick.
ghost use Rattle.std.specs.Prelude.{◌≡◌, ◌+◌, ◌<◌, length, get_or, take, drop};
ghost use Rattle.word.specs.Choice.{◌or◌, pick};
ghost use Rattle.word.specs.Operation.{operate as operate_of, demand as demand_of};
ghost use Rattle.word.specs.Table.{number_of};
ghost use Rattle.flat.specs.Flat.{worked, worked_clips, effect, machine, execute as execute_of, execute_clips};
ghost use Rattle.flat.specs.Code.{header, instructions_of, input_count, instruction_count};
ghost use Rattle.flat.specs.Steps.{listed, Workable, Steppable, Advanced, Ready};

use crate::format::{HEADER, INPUTS, INSTRUCTIONS, Instruction, WIDTH, instruction_at};
use crate::keys::Key;
use cells::{clear, delay_at, tell};
use word::{Operation, demand, index};

// What an instruction gives: the value of its register, and how many instructions are to be skipped after it.
#[derive(Drop)]
struct Effect {
    value: u32,
    skip: usize,
}

// A value, and no skip.
fn gives(value: u32) -> Effect
    ensures { (result.value ≡ value) × (result.skip ≡ 0) }
{
    Effect { value, skip: 0 }
}

// The value 0, and a skip of so many unless the clock is a demand.
fn skips(clock: u32, count: usize) -> Effect
    ensures { (result.value ≡ 0) × (result.skip ≡ pick (demand_of clock) 0 count) }
{
    if demand(clock) {
        return gives(0);
    }
    Effect {
        value: 0,
        skip: count,
    }
}

// The operation on the registers that an instruction names, and a third number.
fn operated(operation: Operation, x: Instruction, third: u32, registers: &[u32]) -> Effect
    requires { (x.b < length registers.now) × (x.c < length registers.now) }
    ensures { (result.value ≡ operate_of (number_of operation) (get_or registers.now x.b 0) (get_or registers.now x.c 0) third) × (result.skip ≡ 0) }
{
    let b = index(x.b);
    let c = index(x.c);
    gives(operation.value(registers[b], registers[c], third))
}

// One instruction that is not skipped, by its key. An operation's arm names it as a constant, so that each is compiled
// for itself, and one jump finds it; only the selector reads a third register, only a delay tells that it was clipped.
fn work(
    key: Key,
    x: Instruction,
    controls: &[u32],
    registers: &[u32],
    cells: &mut [u32],
    told: &mut bool,
) -> Effect
    requires { Workable key (listed x) controls.now registers.now cells.old }
    ensures cells_value { worked controls.now (listed x) registers.now cells.old ≡ effect result.value result.skip cells.new }
    ensures told_after { told.new ≡ (told.old or worked_clips (listed x) registers.now) }
{
    let a = index(x.a);
    let b = index(x.b);
    match key {
        Key::Number => gives(x.a),
        Key::Control => gives(controls[a]),
        Key::Delay => {
            let delayed = delay_at(cells, index(x.c), index(x.d), registers[a], registers[b]);
            tell(told, delayed.clipped);
            gives(delayed.value)
        }
        Key::Read => gives(cells[a]),
        Key::Write => {
            cells[a] = registers[b];
            gives(0)
        }
        Key::Add => operated(Operation::Add, x, 0, registers),
        Key::Subtract => operated(Operation::Subtract, x, 0, registers),
        Key::Multiply => operated(Operation::Multiply, x, 0, registers),
        Key::Quotient => operated(Operation::Quotient, x, 0, registers),
        Key::Remainder => operated(Operation::Remainder, x, 0, registers),
        Key::Less => operated(Operation::Less, x, 0, registers),
        Key::Equal => operated(Operation::Equal, x, 0, registers),
        Key::Absolute => operated(Operation::Absolute, x, 0, registers),
        Key::Negate => operated(Operation::Negate, x, 0, registers),
        Key::Select => operated(Operation::Select, x, registers[index(x.e)], registers),
        Key::Skip => skips(registers[a], b),
    }
}

// One instruction: its own register, and zeros for the instructions that it skips, which it counts.
fn step(
    key: Key,
    x: Instruction,
    controls: &[u32],
    own: usize,
    registers: &mut [u32],
    cells: &mut [u32],
    told: &mut bool,
) -> usize
    requires { Steppable key (listed x) controls.now own registers.old cells.old }
    ensures advanced { Advanced (listed x) controls.now own registers.old cells.old result registers.new cells.new }
    ensures told_after { told.new ≡ (told.old or worked_clips (listed x) (take own registers.old)) }
{
    let given = work(key, x, controls, registers, cells, told);
    let skip = given.skip;
    registers[own] = given.value;
    let from = own + 1;
    let to = from + skip;
    clear(&mut registers[from..to], skip);
    skip
}

// The instructions of a code, over registers of which the first hold the inputs; was a delay clipped?
pub fn execute(
    code: &[u32],
    keys: &[Key],
    controls: &[u32],
    registers: &mut [u32],
    cells: &mut [u32],
) -> bool
    requires { Ready code.now keys.now controls.now registers.old cells.old }
    ensures cells_value { execute_of controls.now (instructions_of (instruction_count code.now) (drop header code.now)) (machine (take (input_count code.now) registers.old) 0 cells.old)
        ≡ machine (take (input_count code.now + instruction_count code.now) registers.new) 0 cells.new }
    ensures value { result ≡ execute_clips controls.now (instructions_of (instruction_count code.now) (drop header code.now)) (machine (take (input_count code.now) registers.old) 0 cells.old) }
{
    let first = index(code[INPUTS]);
    let end = first + index(code[INSTRUCTIONS]);
    let mut p: usize = HEADER;
    let mut own: usize = first;
    let mut told = false;
    // no `for`: each instruction says how many behind it are skipped
    while own < end {
        let skip = step(
            keys[own],
            instruction_at(code, p),
            controls,
            own,
            registers,
            cells,
            &mut told,
        );
        p += WIDTH;
        own += 1;
        // apart, so that an instruction that skips nothing goes on by constants
        if 0 < skip {
            p += WIDTH * skip;
            own += skip;
        }
    }
    told
}
