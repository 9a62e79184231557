// The parts of a node's translation: before its first side, between its sides, behind its second; around an ondemand's body.
ghost use Rattle.walker.specs.Ready.{Joins, Demands};
ghost use Rattle.translator.specs.Writing.{Room};
ghost use Rattle.translator.specs.Parts.{opening_of, middle_of, closing_of, skipping_of, holding_of, Opens, Links, Closes, Skips, Holds};

use crate::instructions::skip;
use crate::merge::put_merges;
use crate::place::{Progress, ascending};
use arity::circuit::Circuit;
use arity::kinds::Kind;
use beam::{after, joined};
use walker::wiring::second_given;

// Before the first side: a recursion's reads.
pub fn put_opening(circuit: &Circuit, node: usize, p: Progress, code: &mut [u32]) -> Progress
    requires joins { Joins circuit.now node }
    requires room { Room (opening_of circuit.now node p).code p.place code.old }
    ensures { Opens circuit.now node p code.old result code.new }
{
    match circuit.kind(node) {
        Kind::Recursion => {
            let cell = circuit.cell(node) as u32;
            let q = circuit.inputs(circuit.right(node));
            Progress {
                regs: ascending(p.place.next, q),
                place: p.place.put_reads(code, cell, q),
            }
        }
        _ => p,
    }
}

// Between the sides: a merge's additions. The first side left q.
pub fn put_middle(
    circuit: &Circuit,
    node: usize,
    p: Progress,
    q: Progress,
    code: &mut [u32],
) -> Progress
    requires joins { Joins circuit.now node }
    requires room { Room (middle_of circuit.now node p q).code q.place code.old }
    ensures { Links circuit.now node p q code.old result code.new }
{
    match circuit.kind(node) {
        Kind::Merge => {
            let m = circuit.outputs(circuit.left(node));
            let b = circuit.inputs(circuit.right(node));
            put_merges(code, q, m, b)
        }
        _ => Progress {
            regs: second_given(circuit, node, p.regs, q.regs),
            ..q
        },
    }
}

// Behind the second side: a recursion's writes. The first side left q, the second r.
pub fn put_closing(
    circuit: &Circuit,
    node: usize,
    q: Progress,
    r: Progress,
    code: &mut [u32],
) -> Progress
    requires joins { Joins circuit.now node }
    requires room { Room (closing_of circuit.now node q r).code r.place code.old }
    ensures { Closes circuit.now node q r code.old result code.new }
{
    match circuit.kind(node) {
        Kind::Parallel => {
            let m = circuit.outputs(circuit.left(node));
            let k = circuit.outputs(circuit.right(node));
            Progress {
                regs: joined(q.regs, m, r.regs, k),
                ..r
            }
        }
        Kind::Recursion => {
            let cell = circuit.cell(node) as u32;
            let k = circuit.inputs(circuit.right(node));
            Progress {
                place: r.place.put_writes(code, cell, &r.regs[..k]),
                ..r
            }
        }
        _ => r,
    }
}

// Before an ondemand's body: the skip over the body and its writes.
pub fn put_skip(circuit: &Circuit, node: usize, p: Progress, code: &mut [u32]) -> Progress
    requires demands { Demands circuit.now node }
    requires room { Room (skipping_of circuit.now node p).code p.place code.old }
    ensures { Skips circuit.now node p code.old result code.new }
{
    let body = circuit.left(node);
    let over = circuit.instructions(body) + circuit.outputs(body) as u32;
    Progress {
        regs: after(p.regs, 1),
        place: p.place.push(code, skip(p.regs[0], over)),
    }
}

// Behind an ondemand's body, which left q: the writes of its results, and as many reads.
pub fn put_holding(circuit: &Circuit, node: usize, q: Progress, code: &mut [u32]) -> Progress
    requires demands { Demands circuit.now node }
    requires room { Room (holding_of circuit.now node q).code q.place code.old }
    ensures { Holds circuit.now node q code.old result code.new }
{
    let cell = circuit.cell(node) as u32;
    let m = circuit.outputs(node);
    let w = q.place.put_writes(code, cell, &q.regs[..m]);
    Progress {
        regs: ascending(w.next, m),
        place: w.put_reads(code, cell, m),
    }
}
