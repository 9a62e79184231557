// Row 15: does each probe name an output of the table?
ghost use Rattle.std.specs.Prelude.{◌≡◌};
ghost use Rattle.arity.specs.Table.{nodes, circuit as tree_of};
ghost use Rattle.calls.specs.Probed.{probes_of, names, all_named, probes_ok};

use arity::circuit::Circuit;
use word::index;
use word::limits::PROBES;

// Is this an output of the table?
fn is_output(circuit: &Circuit, node: u32, output: u32) -> bool
    ensures { result ≡ names (nodes circuit.now) (tree_of circuit.now) (record { node = node; output = output }) }
{
    let at = index(node);
    at < circuit.nodes() && index(output) < circuit.outputs(at)
}

fn all_outputs(circuit: &Circuit, probes: &[u32]) -> bool
    ensures { result ≡ all_named (nodes circuit.now) (tree_of circuit.now) (probes_of probes.now) }
{
    probes
        .chunks_exact(2)
        .all(|probe| is_output(circuit, probe[0], probe[1]))
}

// Does row 15 let the probes pass?
pub fn probes_ok(circuit: &Circuit, probes: &[u32]) -> bool
    ensures { result ≡ probes_ok (nodes circuit.now) (tree_of circuit.now) probes.now }
{
    probes.len() % 2 == 0 && (probes.len() / 2 <= PROBES && all_outputs(circuit, probes))
}
