// The three fields of a node, and their ranges.
ghost use Rattle.std.specs.Prelude.{◌≡◌, ◌<◌};
ghost use Rattle.arity.specs.Table.{nodes, kind_at, first_at, second_at};
ghost use Rattle.arity.specs.Check.{first_in_range, second_in_range};
ghost use Rattle.arity.specs.Kinds.{number_of};

use super::kinds::Kind;
use word::limits::{LAST_SLOT, LONGEST_DELAY};

// A table stays numbers, as C lends it; each of its fields is read by the document's name.
pub fn kind_of(table: &[u32], node: usize) -> u32
    requires { node < nodes table.now }
    ensures { result ≡ kind_at table.now node }
{
    table[3 * node]
}

pub fn first_of(table: &[u32], node: usize) -> u32
    requires { node < nodes table.now }
    ensures { result ≡ first_at table.now node }
{
    table[3 * node + 1]
}

pub fn second_of(table: &[u32], node: usize) -> u32
    requires { node < nodes table.now }
    ensures { result ≡ second_at table.now node }
{
    table[3 * node + 2]
}

impl Kind {
    // Refusal 5 for the first field of a node of this kind, where it is no child.
    pub fn first_in_range(self, first: u32) -> bool
        ensures { result ≡ first_in_range (number_of self) first }
    {
        // first, so that a check tells kinds with children apart by one comparison
        if !self.is_primitive() {
            return true;
        }
        match self {
            Kind::Control => first <= LAST_SLOT,
            Kind::Operation => 0 < word::operands(first),
            Kind::Delay => first <= LONGEST_DELAY,
            Kind::Cable | Kind::Cut => first == 0,
            _ => true,
        }
    }

    // Refusal 5 for the second field, where it is no child.
    pub fn second_in_range(self, second: u32) -> bool
        ensures { result ≡ second_in_range (number_of self) second }
    {
        self.is_composition() || second == 0
    }
}

// Refusal 5 for the first field by the number of a kind, where there is such a kind: public before `Kind`.
pub fn first_in_range(kind: u32, first: u32) -> bool
    ensures { result ≡ first_in_range kind first }
{
    match Kind::numbered(kind) {
        Some(kind) => kind.first_in_range(first),
        None => true,
    }
}

// Likewise for the second field.
pub fn second_in_range(kind: u32, second: u32) -> bool
    ensures { result ≡ second_in_range kind second }
{
    match Kind::numbered(kind) {
        Some(kind) => kind.second_in_range(second),
        None => second == 0,
    }
}
