// The translation of a node.
ghost use Rattle.std.specs.Prelude.{◌≤◌};
ghost use Rattle.arity.specs.Table.{kind_at};
ghost use Rattle.walker.specs.Ready.{Inside};
ghost use Rattle.translator.specs.Writing.{Room};
ghost use Rattle.translator.specs.Parts.{emission, Emits};

use crate::instructions::{control, delay, number, operation};
use crate::parts::{put_closing, put_holding, put_middle, put_opening, put_skip};
use crate::place::{Progress, one_register};
use arity::circuit::Circuit;
use arity::kinds::Kind;
use beam::entry;
use walker::wiring::{first_child, second_child};

// The translation of a primitive.
fn emit_leaf(circuit: &Circuit, node: usize, p: Progress, code: &mut [u32]) -> Progress
    requires inside { Inside circuit.now node }
    requires node_bound { kind_at circuit.now node ≤ 6 }
    requires room { Room (emission circuit.now node p).code p.place code.old }
    ensures { Emits circuit.now node p code.old result code.new }
{
    let value = circuit.value(node);
    let n = circuit.inputs(node);
    let x = entry(&p.regs, n, 0);
    let y = entry(&p.regs, n, 1);
    match circuit.kind(node) {
        Kind::Number => p.place.push_one(code, number(value)),
        Kind::Control => p.place.push_one(code, control(value)),
        Kind::Operation => {
            let z = entry(&p.regs, n, 2);
            p.place.push_one(code, operation(value, x, y, z))
        }
        Kind::Delay => {
            let cell = circuit.cell(node) as u32;
            p.place.push_one(code, delay(x, y, cell, value))
        }
        Kind::Cable => Progress {
            regs: one_register(x),
            ..p
        },
        _ => p,
    }
}

// The translation of a node: its inputs are the first registers of p, its outputs the first of the answer.
pub fn emit_node(circuit: &Circuit, node: usize, p: Progress, code: &mut [u32]) -> Progress
    requires inside { Inside circuit.now node }
    requires room { Room (emission circuit.now node p).code p.place code.old }
    ensures { Emits circuit.now node p code.old result code.new }
{
    // q and r are reused, q on both ways: each level of a circuit has a frame, which is then a third smaller
    let mut q: Progress;
    match circuit.kind(node) {
        Kind::Sequence | Kind::Parallel | Kind::Split | Kind::Merge | Kind::Recursion => {
            let first = first_child(circuit.table(), node);
            let second = second_child(circuit.table(), node);
            q = put_opening(circuit, node, p, code);
            q = emit_node(circuit, first, q, code);
            let mut r = put_middle(circuit, node, p, q, code);
            r = emit_node(circuit, second, r, code);
            put_closing(circuit, node, q, r, code)
        }
        Kind::Ondemand => {
            let body = circuit.left(node);
            q = put_skip(circuit, node, p, code);
            q = emit_node(circuit, body, q, code);
            put_holding(circuit, node, q, code)
        }
        _ => emit_leaf(circuit, node, p, code),
    }
}
