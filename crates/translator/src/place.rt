// Where code is written: instruction after instruction, each with a register of its own.
ghost use Rattle.std.specs.Prelude.{◌≡◌, [], ◌∷◌, ◌+◌, ◌^◌, ◌≤◌, length, take};
ghost use Rattle.word.specs.Limits.{widest};
ghost use Rattle.flat.specs.Codes.{number_of};
ghost use Rattle.flat.specs.Steps.{listed};
ghost use Rattle.translator.specs.Emit.{single, reads, writes, up_from};
ghost use Rattle.translator.specs.Writing.{Room, Written, Puts, on_cells};

use crate::instructions::on_cell;
use flat::format::{Code, Instruction, WIDTH, put_instruction};
use word::limits::BEAM;

// The next instruction: the register that it writes, and where it stands.
#[derive(Clone, Copy)]
pub struct Place {
    pub next: u32,
    pub at: usize,
}

// The registers of a beam, and the next instruction.
#[derive(Clone, Copy)]
pub struct Progress {
    pub regs: [u32; BEAM],
    pub place: Place,
}

impl Place {
    // One instruction.
    pub fn push(self, code: &mut [u32], x: Instruction) -> Place
        requires { Room (listed x ∷ []) self code.old }
        ensures { Written (listed x ∷ []) self code.old result code.new }
    {
        put_instruction(code, self.at, x);
        Place {
            next: self.next + 1,
            at: self.at + WIDTH,
        }
    }

    // One instruction whose register is a result.
    pub fn push_one(self, code: &mut [u32], x: Instruction) -> Progress
        requires { Room (listed x ∷ []) self code.old }
        ensures { Puts (single (listed x) self.next) 1 self code.old result code.new }
    {
        Progress {
            regs: one_register(self.next),
            place: self.push(code, x),
        }
    }

    // An instruction on a cell for each register, from `cell` on.
    fn put_cells(self, code: &mut [u32], access: Code, cell: u32, regs: &[u32]) -> Place
        requires count_le_widest { (length regs.now ≤ widest) × (cell + length regs.now ≤ 2 ^ 32) }
        requires room { Room (on_cells (number_of access) cell regs.now) self code.old }
        ensures { Written (on_cells (number_of access) cell regs.now) self code.old result code.new }
    {
        let mut q = self;
        for (i, x) in regs.iter().enumerate() {
            q = q.push(code, on_cell(access, cell + i as u32, *x));
        }
        q
    }

    // Reads of `count` cells.
    pub fn put_reads(self, code: &mut [u32], cell: u32, count: usize) -> Place
        requires count_le_widest { (count ≤ widest) × (cell + count ≤ 2 ^ 32) }
        requires room { Room (reads cell count) self code.old }
        ensures { Written (reads cell count) self code.old result code.new }
    {
        self.put_cells(code, Code::Read, cell, &[0u32; BEAM][..count])
    }

    // Writes of the registers.
    pub fn put_writes(self, code: &mut [u32], cell: u32, regs: &[u32]) -> Place
        requires count_le_widest { (length regs.now ≤ widest) × (cell + length regs.now ≤ 2 ^ 32) }
        requires room { Room (writes cell regs.now) self code.old }
        ensures { Written (writes cell regs.now) self code.old result code.new }
    {
        self.put_cells(code, Code::Write, cell, regs)
    }
}

// One register. The places behind it are 0: the frame that each level of a circuit has is then a third smaller than with the register at all of them.
pub fn one_register(register: u32) -> [u32; BEAM]
    ensures { take 1 result ≡ register ∷ [] }
{
    let mut regs = [0u32; BEAM];
    regs[0] = register;
    regs
}

// The `count` registers from `first` on.
pub fn ascending(first: u32, count: usize) -> [u32; BEAM]
    requires { (count ≤ widest) × (first + count ≤ 65536) }
    ensures { take count result ≡ up_from first count }
{
    let mut regs = [0u32; BEAM];
    for i in 0..count {
        regs[i] = first + i as u32;
    }
    regs
}
