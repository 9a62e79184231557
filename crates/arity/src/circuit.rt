// An accepted table with its survey: what the walker and the translator read of its nodes. Clauses see it as the table.
ghost use Rattle.std.specs.Prelude.{◌≡◌, ◌≤◌, ◌<◌, ◌^◌, ℕ, List, get_or};
ghost use Rattle.word.specs.Limits.{most_nodes};
ghost use Rattle.arity.specs.Tree.{ins, outs, need};
ghost use Rattle.arity.specs.Table.{nodes, kind_at, first_at, second_at, tree, circuit};
ghost use Rattle.arity.specs.Nodes.{cells_before};
ghost use Rattle.arity.specs.Kinds.{number_of};
ghost use Rattle.arity.specs.Ready.{Promising, Ready, Sound};

use crate::fields::{first_of, kind_of, second_of};
use crate::kinds::Kind;
use crate::rows::{SHAPE, cell_of, inputs_of, outputs_of, row_at};
use std::marker::Model;
use word::index;

#[derive(Drop)]
pub struct Circuit<'a> {
    table: &'a [u32],
    shape: &'a [u32; SHAPE],
}

impl<'a> Model for Circuit<'a> {
    ghost Value = { List ℕ };

    ghost view = { λ c. c.table.now };

    ghost invariant = { λ c. Sound c.table.now c.shape.now };
}

// The entries of a slice are words; what is known of an array behind a reference does not say so.
fn are_words(numbers: &[u32])
    ensures { (k : ℕ) → get_or numbers.now k 0 < 2 ^ 32 }
{}

impl<'a> Circuit<'a> {
    pub fn new(table: &'a [u32], shape: &'a [u32; SHAPE]) -> Self
        requires { Ready table.now shape.now }
        ensures { result ≡ table.now }
    {
        are_words(shape);
        Circuit { table, shape }
    }

    pub fn table(&self) -> &[u32]
        ensures { result.now ≡ self.now }
    {
        &self.table[..]
    }

    // How many nodes there are.
    pub fn nodes(&self) -> usize
        ensures value { result ≡ nodes self.now }
        ensures few { result ≤ most_nodes }
        ensures promise { Promising self.now }
    {
        self.table.len() / 3
    }

    // Each of these promises what the check found of all nodes: only this crate sees the invariant.
    pub fn kind(&self, node: usize) -> Kind
        requires { node < nodes self.now }
        ensures value { number_of result ≡ kind_at self.now node }
        ensures promise { Promising self.now }
    {
        Kind::numbered(kind_of(self.table, node)).unwrap()
    }

    // The first field of a primitive: its value, slot, op or D.
    pub fn value(&self, node: usize) -> u32
        requires { node < nodes self.now }
        ensures value { result ≡ first_at self.now node }
        ensures promise { Promising self.now }
    {
        first_of(self.table, node)
    }

    // The left side of a composition, or the body of an ondemand.
    pub fn left(&self, node: usize) -> usize
        requires { node < nodes self.now }
        ensures value { result ≡ first_at self.now node }
        ensures promise { Promising self.now }
    {
        index(first_of(self.table, node))
    }

    pub fn right(&self, node: usize) -> usize
        requires { node < nodes self.now }
        ensures value { result ≡ second_at self.now node }
        ensures promise { Promising self.now }
    {
        index(second_of(self.table, node))
    }

    pub fn inputs(&self, node: usize) -> usize
        requires { node < nodes self.now }
        ensures { result ≡ ins (tree self.now node) }
    {
        inputs_of(self.shape, node)
    }

    pub fn outputs(&self, node: usize) -> usize
        requires { node < nodes self.now }
        ensures { result ≡ outs (tree self.now node) }
    {
        outputs_of(self.shape, node)
    }

    // How many instructions the tree of a node needs.
    pub fn instructions(&self, node: usize) -> u32
        requires { node < nodes self.now }
        ensures { result ≡ need (tree self.now node) }
    {
        row_at(self.shape, node).instructions
    }

    // The first cell of a node.
    pub fn cell(&self, node: usize) -> usize
        requires { node < nodes self.now }
        ensures value { result ≡ cells_before (circuit self.now) node }
        ensures promise { Promising self.now }
    {
        cell_of(self.shape, node)
    }
}
