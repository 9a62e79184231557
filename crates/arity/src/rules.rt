// Refusals 7 and 16: the arity rules, and what a recursion feeds back.
ghost use Rattle.std.specs.Prelude.{◌≡◌};
ghost use Rattle.arity.specs.Check.{multiple};
ghost use Rattle.arity.specs.Kinds.{number_of};
ghost use Rattle.arity.specs.Steps.{rule_of, feedback_of};

use super::kinds::Kind;
use super::rows::Row;

// Whether n is b some number of times, at least once.
fn is_multiple(b: u32, n: u32) -> bool
    ensures { result ≡ multiple b n }
{
    if b == 0 {
        return n == 0;
    }
    if n < 1 {
        return false;
    }
    n % b == 0
}

// Whether the rule of a kind fits a left and a right side.
pub fn rule_fits(kind: Kind, l: Row, r: Row) -> bool
    ensures { result ≡ rule_of (number_of kind) l r }
{
    match kind {
        Kind::Sequence => l.outputs == r.inputs,
        Kind::Split => is_multiple(l.outputs, r.inputs),
        Kind::Merge => is_multiple(r.inputs, l.outputs),
        Kind::Recursion => r.inputs <= l.outputs && r.outputs <= l.inputs,
        _ => true,
    }
}

// Whether the right side of a recursion has an input or an output; another kind need not.
pub fn feeds_back(kind: Kind, r: Row) -> bool
    ensures { result ≡ feedback_of (number_of kind) r }
{
    match kind {
        Kind::Recursion => r.inputs != 0 || r.outputs != 0,
        _ => true,
    }
}
