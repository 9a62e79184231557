// The format of flat code: a header, instructions of so many numbers each, and the output registers.
ghost use Rattle.std.specs.Prelude.{◌≡◌, ◌≢◌, ◌+◌, ◌≤◌, length, MatchOption};
ghost use Rattle.flat.specs.Flat.{width};
ghost use Rattle.cells.specs.Cells.{store};
ghost use Rattle.flat.specs.Code.{instruction_numbers, instruction_at};
ghost use Rattle.flat.specs.Codes.{number_of};
ghost use Rattle.flat.specs.declared.format.Code.{Code};
ghost use Rattle.flat.specs.Steps.{listed};

use word::limits::{BEAM, MOST_INSTRUCTIONS};

// The numbers of an instruction.
pub const WIDTH: usize = 6;

// The header: inputs, outputs, instructions and cells, and how many numbers these are.
pub const INPUTS: usize = 0;

pub const OUTPUTS: usize = 1;

pub const INSTRUCTIONS: usize = 2;

pub const CELLS: usize = 3;

pub const HEADER: usize = 4;

// The registers and the numbers of the largest code.
pub const REGISTERS: usize = BEAM + MOST_INSTRUCTIONS as usize;

pub const CODE_NUMBERS: usize = HEADER + WIDTH * MOST_INSTRUCTIONS as usize + BEAM;

// What an instruction does, by the table of codes.
#[derive(Clone, Copy, Debug, PartialEq, Eq)]
pub enum Code {
    Number = 1,
    Control = 2,
    Operation = 3,
    Delay = 4,
    Read = 5,
    Write = 6,
    Skip = 7,
}

impl Code {
    // The code of the number `number`, where there is one.
    pub fn numbered(number: u32) -> Option<Code>
        ensures { MatchOption result ((c : Code) → number_of c ≢ number) (λ c. number_of c ≡ number) }
    {
        match number {
            1 => Some(Code::Number),
            2 => Some(Code::Control),
            3 => Some(Code::Operation),
            4 => Some(Code::Delay),
            5 => Some(Code::Read),
            6 => Some(Code::Write),
            7 => Some(Code::Skip),
            _ => None,
        }
    }

    // Its number in the table.
    pub fn number(self) -> u32
        ensures { result ≡ number_of self }
    {
        self as u32
    }
}

// One instruction: its code and its operands.
#[derive(Clone, Copy)]
pub struct Instruction {
    pub code: u32,
    pub a: u32,
    pub b: u32,
    pub c: u32,
    pub d: u32,
    pub e: u32,
}

// The numbers of an instruction, from p on.
pub fn put_instruction(code: &mut [u32], p: usize, x: Instruction)
    requires { p + width ≤ length code.old }
    ensures { code.new ≡ store p (instruction_numbers (listed x)) code.old }
{
    code[p] = x.code;
    code[p + 1] = x.a;
    code[p + 2] = x.b;
    code[p + 3] = x.c;
    code[p + 4] = x.d;
    code[p + 5] = x.e;
}

// The instruction that stands at p.
pub fn instruction_at(code: &[u32], p: usize) -> Instruction
    requires { p + width ≤ length code.now }
    ensures { listed result ≡ instruction_at code.now p }
{
    Instruction {
        code: code[p],
        a: code[p + 1],
        b: code[p + 2],
        c: code[p + 3],
        d: code[p + 4],
        e: code[p + 5],
    }
}
