// The check of a code, refusal 13.
ghost use Rattle.std.specs.Prelude.{◌≡◌, [], ◌∷◌, ◌+◌, ◌<◌, ◌≤◌, length, drop, eqb, ltb};
ghost use Rattle.word.specs.Limits.{widest, most_instructions};
ghost use Rattle.word.specs.Choice.{◌and◌, pick};
ghost use Rattle.word.specs.Operation.{operands as operands_of};
ghost use Rattle.flat.specs.Code.{header, results_at, instructions_of, input_count, instruction_count, decode};
ghost use Rattle.flat.specs.Check.{unused as unused_of, input_ok, all_below, instruction_ok, instructions_ok, header_ok, body_ok, code_ok};
ghost use Rattle.flat.specs.Steps.{listed, Header};

use crate::format::{
    CELLS, Code, HEADER, INPUTS, INSTRUCTIONS, Instruction, OUTPUTS, WIDTH, instruction_at,
};
use word::limits::{LONGEST_DELAY, MOST_CELLS, MOST_INSTRUCTIONS, SLOTS, WIDEST};
use word::{index, operands};

// Unused numbers are 0.
fn unused(b: u32, c: u32, d: u32, e: u32) -> bool
    ensures { result ≡ unused_of (b ∷ c ∷ d ∷ e ∷ []) }
{
    b == 0 && (c == 0 && (d == 0 && e == 0))
}

// The number at the input k of an operation with `count` inputs: a register, or unused.
fn input_ok(count: u32, k: u32, own: u32, register: u32) -> bool
    ensures { result ≡ pick (ltb k count) (ltb register own) (eqb register 0) }
{
    if k < count {
        register < own
    } else {
        register == 0
    }
}

// An operation: the table of operand counts knows it; as many registers as the table says; 0 for the others.
fn operation_ok(x: Instruction, own: u32) -> bool
    ensures { result ≡ (ltb 0 (operands_of x.a) and ltb x.b own and input_ok x.a 1 own x.c and input_ok x.a 2 own x.e and eqb x.d 0) }
{
    let count = operands(x.a);
    0 < count
        && (x.b < own
            && (input_ok(count, 1, own, x.c) && (input_ok(count, 2, own, x.e) && x.d == 0)))
}

// The instruction, whose own register is `own`.
fn instruction_ok(x: Instruction, cells: u32, end: u32, own: u32) -> bool
    ensures { result ≡ instruction_ok cells end own (listed x) }
{
    match Code::numbered(x.code) {
        Some(Code::Number) => unused(x.b, x.c, x.d, x.e),
        Some(Code::Control) => x.a < SLOTS && unused(x.b, x.c, x.d, x.e),
        Some(Code::Operation) => operation_ok(x, own),
        Some(Code::Delay) => {
            x.a < own
                && (x.b < own
                    && (x.d <= LONGEST_DELAY
                        && (index(x.c) + (index(x.d) + 1) <= index(cells) && x.e == 0)))
        }
        Some(Code::Read) => x.a < cells && unused(x.b, x.c, x.d, x.e),
        Some(Code::Write) => x.a < cells && (x.b < own && unused(0, x.c, x.d, x.e)),
        Some(Code::Skip) => x.a < own
            && (index(own) + index(x.b) < index(end) && unused(0, x.c, x.d, x.e)),
        None => false,
    }
}

// The header: its bounds, and the length that it calls for.
fn header_ok(code: &[u32]) -> bool
    ensures { result ≡ header_ok code.now }
{
    if code.len() < HEADER {
        return false;
    }
    code[INPUTS] <= WIDEST
        && (code[OUTPUTS] <= WIDEST
            && (code[INSTRUCTIONS] <= MOST_INSTRUCTIONS
                && (code[CELLS] <= MOST_CELLS
                    && code.len()
                        == HEADER + WIDTH * index(code[INSTRUCTIONS]) + index(code[OUTPUTS]))))
}

// The first count instructions, of which the first writes register `first`.
fn instructions_ok(code: &[u32], count: u32, cells: u32, first: u32) -> bool
    requires { (results_at count ≤ length code.now) × ((count ≤ most_instructions) × (first ≤ widest)) }
    ensures { result ≡ instructions_ok cells (first + count) first (instructions_of count (drop header code.now)) }
{
    let end = first + count;
    let mut p: usize = HEADER;
    for own in first..end {
        if !instruction_ok(instruction_at(code, p), cells, end, own) {
            return false;
        }
        p += WIDTH;
    }
    true
}

// The output registers.
fn results_ok(registers: &[u32], end: u32) -> bool
    ensures { result ≡ all_below end registers.now }
{
    registers.iter().all(|register| *register < end)
}

// The instructions and the output registers of a code whose header is right.
fn body_ok(code: &[u32]) -> bool
    requires { Header code.now }
    ensures { result ≡ body_ok (input_count code.now + instruction_count code.now) (decode code.now) }
{
    let n = code[INPUTS];
    let c = code[INSTRUCTIONS];
    let results = HEADER + WIDTH * index(c);
    instructions_ok(code, c, code[CELLS], n) && results_ok(&code[results..], n + c)
}

// Does row 13 let the code pass?
pub fn code_ok(code: &[u32]) -> bool
    ensures { result ≡ code_ok code.now }
{
    header_ok(code) && body_ok(code)
}
