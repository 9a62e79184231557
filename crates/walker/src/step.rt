// One tick of a node: its primitives, its compositions, its on-demand body.
ghost use Rattle.std.specs.Prelude.{◌≡◌, List, ℕ, ◌≤◌, ◌<◌, length, get_or, take};
ghost use Rattle.word.specs.Limits.{widest};
ghost use Rattle.cells.specs.Cells.{store};
ghost use Rattle.arity.specs.Table.{kind_at};
ghost use Rattle.walker.specs.Ready.{base, outs_of, Roomy, Inside, Demands, Holding, Ticked};
ghost use Rattle.walker.specs.Probing.{Watching, Watched, ShowedBelow};

use crate::wiring::{finished, first_child, first_given, second_child, second_given};
use arity::circuit::Circuit;
use arity::kinds::Kind;
use beam::{after, fetched, keep, one};
use cells::{delay_at, tell};
use probes::{MARKS, note};
use word::limits::{BEAM, CONTROLS};
use word::{demand, index, operate};

// The number at a place, 0 past the end.
fn number_at(s: &[u32], at: usize) -> u32
    ensures { result ≡ get_or s.now at 0 }
{
    s.get(at).copied().unwrap_or(0)
}

// One tick of a primitive; a delay tells whether it was clipped.
fn leaf_step(
    circuit: &Circuit,
    node: usize,
    controls: &[u32; CONTROLS],
    ins: &[u32; BEAM],
    cells: &mut [u32],
    told: &mut bool,
) -> [u32; BEAM]
    requires inside { Inside circuit.now node }
    requires node_bound { kind_at circuit.now node ≤ 6 }
    requires roomy { Roomy circuit.now (length cells.old) }
    ensures { Ticked circuit.now controls.now node ins.now cells.old result cells.new told.old told.new }
{
    let value = circuit.value(node);
    let given = &ins[..circuit.inputs(node)];
    match circuit.kind(node) {
        Kind::Number => one(value),
        Kind::Control => one(number_at(controls, index(value))),
        Kind::Operation => one(operate(
            value,
            number_at(given, 0),
            number_at(given, 1),
            number_at(given, 2),
        )),
        Kind::Delay => {
            let delayed = delay_at(
                cells,
                circuit.cell(node),
                index(value),
                number_at(given, 0),
                number_at(given, 1),
            );
            tell(told, delayed.clipped);
            one(delayed.value)
        }
        Kind::Cable => one(number_at(given, 0)),
        _ => *ins,
    }
}

// The outputs that an ondemand holds.
fn held(circuit: &Circuit, node: usize, cells: &[u32]) -> [u32; BEAM]
    requires demands { Demands circuit.now node }
    requires roomy { Roomy circuit.now (length cells.now) }
    ensures { Holding circuit.now node cells.now result }
{
    fetched(cells, circuit.cell(node), circuit.outputs(node))
}

// The outputs of an ondemand's body, kept for the ticks without demand.
fn hold(circuit: &Circuit, node: usize, y: [u32; BEAM], cells: &mut [u32])
    requires demands { Demands circuit.now node }
    requires roomy { Roomy circuit.now (length cells.old) }
    ensures { cells.new ≡ store (base circuit.now node) (outs_of circuit.now node y) cells.old }
{
    keep(cells, circuit.cell(node), circuit.outputs(node), y);
}

// What stays the same from node to node, and from tick to tick of a call.
#[derive(Drop)]
pub struct Walk<'a> {
    pub circuit: &'a Circuit<'a>,
    pub controls: &'a [u32; CONTROLS],
    pub marks: &'a [u8; MARKS],
}

impl<'a> Walk<'a> {
    // One tick of a node: a primitive, an ondemand, or a composition, whose children run one after the other. Whoever has a node worked notes its outputs for
    // its probes: so they need not be copied once more.
    #[cycle(steps)]
    pub fn step(
        &self,
        node: usize,
        ins: &[u32; BEAM],
        cells: &mut [u32],
        latest: &mut [u32],
        told: &mut bool,
    ) -> [u32; BEAM]
        requires inside { Inside self.now.circuit.now node }
        requires roomy { Roomy self.now.circuit.now (length cells.old) }
        requires watched { Watched self.now.circuit.now (length latest.old) self.now.marks.now }
        ensures ticked { Ticked self.now.circuit.now self.now.controls.now node ins.now cells.old result cells.new told.old told.new }
        ensures by_index { (xs : List ℕ) → Watching self.now.circuit.now xs (length latest.old) self.now.marks.now
            → ShowedBelow self.now.circuit.now self.now.controls.now xs node ins.now cells.old latest.old latest.new }
    {
        let circuit = self.circuit;
        match circuit.kind(node) {
            Kind::Sequence | Kind::Parallel | Kind::Split | Kind::Merge | Kind::Recursion => {
                let first = first_child(circuit.table(), node);
                let second = second_child(circuit.table(), node);
                let x = first_given(circuit, node, *ins, cells);
                let y = self.step(first, &x, cells, latest, told);
                note(self.marks, first, y, latest);
                let w = second_given(circuit, node, *ins, y);
                let z = self.step(second, &w, cells, latest, told);
                note(self.marks, second, z, latest);
                finished(circuit, node, y, z, cells)
            }
            Kind::Ondemand => self.demand_step(node, ins, cells, latest, told),
            _ => leaf_step(circuit, node, self.controls, ins, cells, told),
        }
    }

    // One tick of an ondemand: its body runs at a demand alone, and what it holds is given.
    #[cycle(steps)]
    fn demand_step(
        &self,
        node: usize,
        ins: &[u32; BEAM],
        cells: &mut [u32],
        latest: &mut [u32],
        told: &mut bool,
    ) -> [u32; BEAM]
        requires demands { Demands self.now.circuit.now node }
        requires roomy { Roomy self.now.circuit.now (length cells.old) }
        requires watched { Watched self.now.circuit.now (length latest.old) self.now.marks.now }
        ensures ticked { Ticked self.now.circuit.now self.now.controls.now node ins.now cells.old result cells.new told.old told.new }
        ensures by_index { (xs : List ℕ) → Watching self.now.circuit.now xs (length latest.old) self.now.marks.now
            → ShowedBelow self.now.circuit.now self.now.controls.now xs node ins.now cells.old latest.old latest.new }
    {
        let circuit = self.circuit;
        let body = circuit.left(node);
        if demand(ins[0]) {
            let x = after(*ins, 1);
            let y = self.step(body, &x, cells, latest, told);
            note(self.marks, body, y, latest);
            hold(circuit, node, y, cells);
        }
        held(circuit, node, cells)
    }
}
