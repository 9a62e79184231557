// Joining two drawings: the first table's nodes, the second's with child numbers moved on, then the joining node.
#![tactic(auto)]

mod copy;

ghost use Rattle.std.specs.Prelude.{◌≡◌};
ghost use Rattle.refusal.specs.Answer.{answer_of};
ghost use Rattle.refusal.specs.Outcome.{outcome};
ghost use Rattle.arity.specs.Check.{IsAccepted};
ghost use Rattle.joining.specs.Join.{joined_circuits, joined_tables};

use arity::check;
use copy::put_joined;
use refusal::Refusal;
use word::limits::TABLE_NUMBERS;

// Two accepted tables joined: 17, then the refusals of the joined table, then 12; else its numbers.
fn join_circuits(
    kind: u32,
    first: &[u32],
    second: &[u32],
    joined: &mut [u32],
) -> Result<u32, Refusal>
    requires accepted { IsAccepted first.now }
    requires accepted_2 { IsAccepted second.now }
    ensures { outcome (answer_of result) joined.new ≡ joined_circuits kind first.now second.now joined.old }
{
    let total = first.len() + second.len() + 3;
    if TABLE_NUMBERS < total {
        return Err(Refusal::TooManyJoined);
    }
    let mut table = [0u32; TABLE_NUMBERS];
    put_joined(kind, first, second, &mut table);
    check(&table[..total])?;
    if joined.len() < total {
        return Err(Refusal::ShortBuffer);
    }
    put_joined(kind, first, second, joined);
    Ok(total as u32)
}

// Two tables joined by a node of a kind from 7 to 11, a number since any may be handed in: the refusals of the first, those of the second, 17, those
// of the joined table, 12; else the count of its numbers.
pub fn join(kind: u32, first: &[u32], second: &[u32], joined: &mut [u32]) -> Result<u32, Refusal>
    ensures { outcome (answer_of result) joined.new ≡ joined_tables kind first.now second.now joined.old }
{
    check(first)?;
    check(second)?;
    join_circuits(kind, first, second, joined)
}
