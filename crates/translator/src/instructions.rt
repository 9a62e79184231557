// The instructions of the table of codes by their names; a number that a code does not use is 0.
ghost use Rattle.std.specs.Prelude.{◌≡◌};
ghost use Rattle.word.specs.Operation.{operand as operand_of};
ghost use Rattle.flat.specs.Codes.{number_of};
ghost use Rattle.flat.specs.Instructions as named;
ghost use Rattle.flat.specs.Steps.{listed};

use flat::format::{Code, Instruction};
use word::{Operation, operands};

// What a code leaves unused.
const UNUSED: Instruction = Instruction {
    code: 0,
    a: 0,
    b: 0,
    c: 0,
    d: 0,
    e: 0,
};

pub fn number(value: u32) -> Instruction
    ensures { listed result ≡ named.number value }
{
    Instruction {
        code: Code::Number.number(),
        a: value,
        ..UNUSED
    }
}

pub fn control(slot: u32) -> Instruction
    ensures { listed result ≡ named.control slot }
{
    Instruction {
        code: Code::Control.number(),
        a: slot,
        ..UNUSED
    }
}

// The register x as the input k of an operation, or 0 where it has no such input.
fn operand(op: u32, k: u32, x: u32) -> u32
    ensures { result ≡ operand_of op k x }
{
    if k < operands(op) { x } else { 0 }
}

// `op` is a number: the field of a table.
pub fn operation(op: u32, x: u32, y: u32, z: u32) -> Instruction
    ensures { listed result ≡ named.operation op x y z }
{
    Instruction {
        code: Code::Operation.number(),
        a: op,
        b: x,
        c: operand(op, 1, y),
        e: operand(op, 2, z),
        ..UNUSED
    }
}

pub fn addition(x: u32, y: u32) -> Instruction
    ensures { listed result ≡ named.addition x y }
{
    operation(Operation::Add.number(), x, y, 0)
}

// Of the register x, by the amount in the register y, on the cells from `cell` on.
pub fn delay(x: u32, y: u32, cell: u32, d: u32) -> Instruction
    ensures { listed result ≡ named.delay x y cell d }
{
    Instruction {
        code: Code::Delay.number(),
        a: x,
        b: y,
        c: cell,
        d,
        ..UNUSED
    }
}

// A read of the cell, or a write of the register x into it.
pub fn on_cell(code: Code, cell: u32, x: u32) -> Instruction
    ensures { listed result ≡ named.on_cell (number_of code) cell x }
{
    Instruction {
        code: code.number(),
        a: cell,
        b: x,
        ..UNUSED
    }
}

pub fn skip(x: u32, count: u32) -> Instruction
    ensures { listed result ≡ named.skip x count }
{
    Instruction {
        code: Code::Skip.number(),
        a: x,
        b: count,
        ..UNUSED
    }
}
