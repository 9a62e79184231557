// Refusals 6 and 9: which nodes are marked as taken.
ghost use Rattle.std.specs.Prelude.{◌≡◌, ◌≤◌, ◌<◌, ◌-◌, not, position, take};
ghost use Rattle.word.specs.Limits.{most_nodes};
ghost use Rattle.arity.specs.Kinds.{number_of};
ghost use Rattle.arity.specs.Steps.{free_in, children_in, marking};

use super::kinds::Kind;
use word::limits::NODES;

// A child is lower, and no node before has it.
fn is_free(marks: &[bool; NODES], node: usize, child: usize) -> bool
    requires { node ≤ most_nodes }
    ensures { result ≡ free_in marks.now node child }
{
    child < node && !marks[child]
}

// Refusal 6 for a node with children.
pub fn children_free(
    kind: Kind,
    marks: &[bool; NODES],
    node: usize,
    left: usize,
    right: usize,
) -> bool
    requires { node ≤ most_nodes }
    ensures { result ≡ children_in (number_of kind) marks.now node left right }
{
    match kind {
        Kind::Ondemand => is_free(marks, node, left),
        _ => left != right && is_free(marks, node, left) && is_free(marks, node, right),
    }
}

// Mark the children of a node.
pub fn mark(kind: Kind, marks: &mut [bool; NODES], left: usize, right: usize)
    requires left_lt_most_nodes { 7 ≤ number_of kind → left < most_nodes }
    requires right_lt_most_nodes { 7 ≤ number_of kind → number_of kind ≤ 11 → right < most_nodes }
    ensures { marks.new ≡ marking (number_of kind) left right marks.old }
{
    if kind.is_primitive() {
        return;
    }
    marks[left] = true;
    if kind.is_composition() {
        marks[right] = true;
    }
}

// The first of n nodes but the last that is not marked.
pub fn find_loose(marks: &[bool; NODES], n: usize) -> Option<usize>
    requires { n ≤ most_nodes }
    ensures { result ≡ position (λ mark. not mark) (take (n - 1) marks.now) }
{
    marks[..n.saturating_sub(1)].iter().position(|mark| !*mark)
}
