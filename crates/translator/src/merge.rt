// The additions of a merge.
ghost use Rattle.std.specs.Prelude.{◌-◌, ◌/◌, ◌≤◌, take};
ghost use Rattle.word.specs.Limits.{widest};
ghost use Rattle.translator.specs.Emit.{terms, merges};
ghost use Rattle.translator.specs.Writing.{Room, Puts, Summed};

use crate::instructions::addition;
use crate::place::{Place, Progress};
use beam::entry;
use word::limits::BEAM;

// The register of a sum, and the next instruction.
#[derive(Drop)]
pub struct Sum {
    pub register: u32,
    pub place: Place,
}

// The register acc and k more of the first m, b apart from `from` on, added up.
fn put_terms(
    code: &mut [u32],
    p: Place,
    k: usize,
    b: usize,
    acc: u32,
    from: usize,
    regs: &[u32],
    m: usize,
) -> Sum
    requires k_le_widest { (k ≤ widest) × (b ≤ widest) × (from ≤ 64) }
    requires room { Room (terms k b acc from (take m regs.now) p.next).code p code.old }
    ensures { Summed k b acc from (take m regs.now) p code.old result code.new }
{
    let mut q = p;
    let mut register = acc;
    for j in 0..k {
        let next = q.next;
        let term = entry(regs, m, from + j * b);
        q = q.push(code, addition(register, term));
        register = next;
    }
    Sum { register, place: q }
}

// The first m registers of p added onto b, output by output and from the first term on.
pub fn put_merges(code: &mut [u32], p: Progress, m: usize, b: usize) -> Progress
    requires b_le_m { (b ≤ m) × (m ≤ widest) }
    requires room { Room (merges b (m / b - 1) b 0 (take m p.regs) p.place.next).code p.place code.old }
    ensures { Puts (merges b (m / b - 1) b 0 (take m p.regs) p.place.next) b p.place code.old result code.new }
{
    if b == 0 {
        return p;
    }
    let more = m / b - 1;
    let mut sums = [0u32; BEAM];
    let mut q = p.place;
    for i in 0..b {
        let s = put_terms(code, q, more, b, entry(&p.regs, m, i), i + b, &p.regs, m);
        sums[i] = s.register;
        q = s.place;
    }
    Progress {
        regs: sums,
        place: q,
    }
}
