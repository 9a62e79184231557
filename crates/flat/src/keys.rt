// The keys of a code's instructions: what each does.
ghost use Rattle.std.specs.Prelude.{◌≡◌, ◌+◌, ◌≤◌, length};
ghost use Rattle.flat.specs.Code.{header, most_registers, input_count, instruction_count};
ghost use Rattle.flat.specs.Steps.{listed, named_key, operation_key, key_of, Header, Keys};

use crate::format::{Code, HEADER, INPUTS, INSTRUCTIONS, Instruction, WIDTH, instruction_at};
use word::{Operation, index, operands};

// What an instruction does: an operation's key names it, so that the machine finds it by one jump.
#[derive(Clone, Copy)]
pub enum Key {
    Skip,
    Number,
    Control,
    Delay,
    Read,
    Write,
    Add,
    Subtract,
    Multiply,
    Quotient,
    Remainder,
    Less,
    Equal,
    Absolute,
    Negate,
    Select,
}

// The key that names the operation `op`.
fn named_key(op: u32) -> Key
    ensures { result ≡ named_key op }
{
    match Operation::numbered(op) {
        Some(Operation::Add) => Key::Add,
        Some(Operation::Subtract) => Key::Subtract,
        Some(Operation::Multiply) => Key::Multiply,
        Some(Operation::Quotient) => Key::Quotient,
        Some(Operation::Remainder) => Key::Remainder,
        Some(Operation::Less) => Key::Less,
        Some(Operation::Equal) => Key::Equal,
        Some(Operation::Absolute) => Key::Absolute,
        Some(Operation::Negate) => Key::Negate,
        Some(Operation::Select) => Key::Select,
        None => Key::Skip,
    }
}

// The key of the operation `op`, where the operand table has it.
fn operation_key(op: u32) -> Key
    ensures { result ≡ operation_key op }
{
    if 0 < operands(op) {
        named_key(op)
    } else {
        Key::Skip
    }
}

// The key of an instruction that passed the check.
fn key_of(x: Instruction) -> Key
    ensures { result ≡ key_of (listed x) }
{
    match Code::numbered(x.code) {
        Some(Code::Number) => Key::Number,
        Some(Code::Control) => Key::Control,
        Some(Code::Operation) => operation_key(x.a),
        Some(Code::Delay) => Key::Delay,
        Some(Code::Read) => Key::Read,
        Some(Code::Write) => Key::Write,
        Some(Code::Skip) => Key::Skip,
        None => Key::Skip,
    }
}

// The keys of a code, each at the register that its instruction writes.
pub fn put_keys(code: &[u32], keys: &mut [Key])
    requires { Header code.now × (most_registers ≤ length keys.old) }
    ensures { Keys code.now keys.new (input_count code.now + instruction_count code.now) header (input_count code.now) }
{
    let first = index(code[INPUTS]);
    let end = first + index(code[INSTRUCTIONS]);
    let mut p: usize = HEADER;
    for own in first..end {
        keys[own] = key_of(instruction_at(code, p));
        p += WIDTH;
    }
}
