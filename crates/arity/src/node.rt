// One node of the check: the refusals 4 to 7, 16 and 8, the rows downwards, or its counts.
ghost use Rattle.std.specs.Prelude.{◌≡◌, ◌<◌};
ghost use Rattle.arity.specs.Table.{nodes, kind_at};
ghost use Rattle.arity.specs.Check.{first_cell};
ghost use Rattle.arity.specs.Kinds.{number_of};
ghost use Rattle.arity.specs.Steps.{State, Branching, Judges, Steps};

use super::children::{children_free, mark};
use super::counts::{Counts, joint_counts, leaf_counts};
use super::fields::{first_of, kind_of, second_of};
use super::kinds::Kind;
use super::rows::{Row, put_row, row_at};
use super::rules::{feeds_back, rule_fits};
use crate::rows::SHAPE;
use refusal::Refusal;
use word::index;
use word::limits::{NODES, WIDEST};

// A node whose kind is known, where those before it have their rows and marks.
#[derive(Drop)]
struct Candidate<'a> {
    table: &'a [u32],
    shape: &'a [u32; SHAPE],
    marks: &'a [bool; NODES],
    node: usize,
    kind: Kind,
    ghost state: { State table.now shape.now marks.now node },
    ghost inside: { node < nodes table.now },
    ghost named: { number_of kind ≡ kind_at table.now node },
}

impl Candidate<'_> {
    // Refusals 6, 7, 16 and 8 of a node with children, whose fields are right; or its counts.
    fn judge_children(&self) -> Result<Counts, Refusal>
        requires branching { Branching self.now.table.now self.now.node }
        ensures { Judges self.now.table.now self.now.node result }
    {
        let kind = self.kind;
        let left = index(first_of(self.table, self.node));
        let right = index(second_of(self.table, self.node));
        let place = self.node as u32;
        if !children_free(kind, self.marks, self.node, left, right) {
            return Err(Refusal::WrongChild(place));
        }
        let l = row_at(self.shape, left);
        let r = row_at(self.shape, right);
        if !rule_fits(kind, l, r) {
            return Err(Refusal::NoArityRule(place));
        }
        if !feeds_back(kind, r) {
            return Err(Refusal::EmptyFeedback(place));
        }
        let n = joint_counts(kind, l, r);
        if WIDEST < n.inputs {
            return Err(Refusal::TooWide(place));
        }
        if WIDEST < n.outputs {
            return Err(Refusal::TooWide(place));
        }
        Ok(n)
    }

    // The first of the refusals 5 to 7, 16 and 8, or the counts.
    fn judge(&self) -> Result<Counts, Refusal>
        ensures { Judges self.now.table.now self.now.node result }
    {
        let kind = self.kind;
        let first = first_of(self.table, self.node);
        let second = second_of(self.table, self.node);
        let place = self.node as u32;
        if !kind.first_in_range(first) {
            return Err(Refusal::WrongField(place));
        }
        if !kind.second_in_range(second) {
            return Err(Refusal::WrongField(place));
        }
        if !kind.is_primitive() {
            return self.judge_children();
        }
        Ok(leaf_counts(kind, first))
    }
}

// Judge a node, put its row, and mark its children: the next node's first cell, or the first refusal of the node.
pub fn step(
    table: &[u32],
    shape: &mut [u32; SHAPE],
    marks: &mut [bool; NODES],
    node: usize,
    cell: u32,
) -> Result<u32, Refusal>
    requires state { State table.now shape.old marks.old node }
    requires node_bound { node < nodes table.now }
    requires cell_value { cell ≡ first_cell table.now node }
    ensures { Steps table.now node result shape.old shape.new marks.new }
{
    let Some(kind) = Kind::numbered(kind_of(table, node)) else {
        return Err(Refusal::UnknownKind(node as u32));
    };
    let candidate = Candidate {
        table,
        shape,
        marks,
        node,
        kind,
    };
    let n = candidate.judge()?;
    put_row(
        shape,
        node,
        Row {
            inputs: n.inputs,
            outputs: n.outputs,
            instructions: n.instructions,
            cell,
        },
    );
    let left = index(first_of(table, node));
    let right = index(second_of(table, node));
    mark(kind, marks, left, right);
    Ok(cell + n.cells)
}
