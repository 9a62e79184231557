// The wires of a composition: which child runs first, what each is given, and what becomes of their outputs.
ghost use Rattle.std.specs.Prelude.{◌≡◌, length};
ghost use Rattle.arity.specs.Ready.{Ready};
ghost use Rattle.walker.specs.Ready.{Roomy, Joins, first_child, second_child, FirstGiven, SecondGiven, Finished};

use arity::circuit::Circuit;
use arity::fields::{first_of, kind_of, second_of};
use arity::kinds::Kind;
use arity::rows::SHAPE;
use beam::{after, fetched, joined, keep, merged, repeated};
use word::index;
use word::limits::BEAM;

// The left child, in a recursion the right one; of a table that need not be accepted, so no `Circuit`.
pub fn first_child(table: &[u32], node: usize) -> usize
    requires { Joins table.now node }
    ensures { result ≡ first_child table.now node }
{
    match Kind::numbered(kind_of(table, node)) {
        Some(Kind::Recursion) => index(second_of(table, node)),
        _ => index(first_of(table, node)),
    }
}

pub fn second_child(table: &[u32], node: usize) -> usize
    requires { Joins table.now node }
    ensures { result ≡ second_child table.now node }
{
    match Kind::numbered(kind_of(table, node)) {
        Some(Kind::Recursion) => index(first_of(table, node)),
        _ => index(second_of(table, node)),
    }
}

// What the first child of a circuit's node is given.
pub fn first_given(circuit: &Circuit, node: usize, ins: [u32; BEAM], cells: &[u32]) -> [u32; BEAM]
    requires joins { Joins circuit.now node }
    requires roomy { Roomy circuit.now (length cells.now) }
    ensures { FirstGiven circuit.now node ins cells.now result }
{
    match circuit.kind(node) {
        Kind::Recursion => fetched(
            cells,
            circuit.cell(node),
            circuit.inputs(circuit.right(node)),
        ),
        _ => ins,
    }
}

// What the second child is given, where y are the outputs of the first, which a sequence hands on.
pub fn second_given(circuit: &Circuit, node: usize, ins: [u32; BEAM], y: [u32; BEAM]) -> [u32; BEAM]
    requires { Joins circuit.now node }
    ensures { SecondGiven circuit.now node ins y result }
{
    let left = circuit.left(node);
    let right = circuit.right(node);
    match circuit.kind(node) {
        Kind::Parallel => after(ins, circuit.inputs(left)),
        Kind::Split => repeated(y, circuit.outputs(left), circuit.inputs(right)),
        Kind::Merge => merged(y, circuit.outputs(left), circuit.inputs(right)),
        Kind::Recursion => joined(y, circuit.outputs(right), ins, circuit.inputs(node)),
        _ => y,
    }
}

// The outputs of the node, where y and z are those of its children; a recursion keeps what it feeds back.
pub fn finished(
    circuit: &Circuit,
    node: usize,
    y: [u32; BEAM],
    z: [u32; BEAM],
    cells: &mut [u32],
) -> [u32; BEAM]
    requires joins { Joins circuit.now node }
    requires roomy { Roomy circuit.now (length cells.old) }
    ensures { Finished circuit.now node y z cells.old result cells.new }
{
    let left = circuit.left(node);
    let right = circuit.right(node);
    match circuit.kind(node) {
        Kind::Parallel => joined(y, circuit.outputs(left), z, circuit.outputs(right)),
        Kind::Recursion => {
            keep(cells, circuit.cell(node), circuit.inputs(right), z);
            z
        }
        _ => z,
    }
}

// The same three by the table and its survey, as they were lent before there was a `Circuit`.
pub fn first_input(
    table: &[u32],
    shape: &[u32; SHAPE],
    node: usize,
    ins: [u32; BEAM],
    cells: &[u32],
) -> [u32; BEAM]
    requires ready { Ready table.now shape.now }
    requires joins { Joins table.now node }
    requires roomy { Roomy table.now (length cells.now) }
    ensures { FirstGiven table.now node ins cells.now result }
{
    first_given(&Circuit::new(table, shape), node, ins, cells)
}

pub fn second_input(
    table: &[u32],
    shape: &[u32; SHAPE],
    node: usize,
    ins: [u32; BEAM],
    y: [u32; BEAM],
) -> [u32; BEAM]
    requires ready { Ready table.now shape.now }
    requires joins { Joins table.now node }
    ensures { SecondGiven table.now node ins y result }
{
    second_given(&Circuit::new(table, shape), node, ins, y)
}

pub fn finish(
    table: &[u32],
    shape: &[u32; SHAPE],
    node: usize,
    y: [u32; BEAM],
    z: [u32; BEAM],
    cells: &mut [u32],
) -> [u32; BEAM]
    requires ready { Ready table.now shape.now }
    requires joins { Joins table.now node }
    requires roomy { Roomy table.now (length cells.old) }
    ensures { Finished table.now node y z cells.old result cells.new }
{
    finished(&Circuit::new(table, shape), node, y, z, cells)
}
