// Tables in their places in a larger one.
ghost use Rattle.std.specs.Prelude.{◌≡◌, true, [], ◌∷◌, ◌+◌, ◌*◌, ◌<◌, ◌≤◌, ◌^◌, length, leb};
ghost use Rattle.std.proofs.lemmas.List.Edits.{sets};
ghost use Rattle.word.specs.Choice.{pick};
ghost use Rattle.word.specs.Limits.{most_nodes};
ghost use Rattle.arity.specs.Check.{two_children, IsAccepted};
ghost use Rattle.arity.specs.Kinds.{number_of};
ghost use Rattle.drawing.specs.Numbering.{moved};
ghost use Rattle.drawing.specs.Numbering.{joined as joined_table};
ghost use Rattle.drawing.specs.Laws.{Joinable};
ghost use Rattle.joining.specs.Copy.{Space};

use arity::fields::{first_of, kind_of, second_of};
use arity::kinds::Kind;

// Whether the first field of a node of this kind is a child.
#[tactic(auto, using(crate::proofs::Copying::not_low))]
fn has_child(kind: Kind) -> bool
    ensures { result ≡ leb 7 (number_of kind) }
{
    !kind.is_primitive()
}

// Whether a node of this kind has a left and a right child.
fn two_children(kind: Kind) -> bool
    ensures { result ≡ two_children (number_of kind) }
{
    kind.is_composition()
}

// A field of a node, moved on by n where it is a child.
fn moved_field(child: bool, field: u32, n: u32) -> u32
    requires { child ≡ true → n + field < 2 ^ 32 }
    ensures { result ≡ pick child (n + field) field }
{
    if child { n + field } else { field }
}

// The three numbers of node `at` of a table.
fn put_node(out: &mut [u32], at: usize, kind: u32, first: u32, second: u32)
    requires { (at < most_nodes) × (3 * at + 3 ≤ length out.old) }
    ensures { out.new ≡ sets out.old (3 * at) (kind ∷ first ∷ second ∷ []) }
{
    out[3 * at..3 * at + 3].copy_from_slice(&[kind, first, second]);
}

// The nodes of a table from node `at` of another on, child numbers moved on by n.
fn put_table(table: &[u32], at: usize, n: u32, out: &mut [u32])
    requires accepted { IsAccepted table.now }
    requires space { Space table.now at n out.old }
    ensures { out.new ≡ sets out.old (3 * at) (moved n table.now) }
{
    for i in 0..table.len() / 3 {
        let number = kind_of(table, i);
        let kind = Kind::numbered(number).unwrap();
        let first = moved_field(has_child(kind), first_of(table, i), n);
        let second = moved_field(two_children(kind), second_of(table, i), n);
        put_node(out, at + i, number, first, second);
    }
}

// The joined table.
pub fn put_joined(kind: u32, first: &[u32], second: &[u32], out: &mut [u32])
    requires joinable { Joinable first.now second.now }
    requires second_in_bounds { length first.now + length second.now + 3 ≤ length out.old }
    ensures { out.new ≡ sets out.old 0 (joined_table kind first.now second.now) }
{
    let at = first.len() / 3;
    let last = at + second.len() / 3;
    put_table(first, 0, 0, out);
    put_table(second, at, at as u32, out);
    put_node(out, last, kind, at as u32 - 1, last as u32 - 1);
}
