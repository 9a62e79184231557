// The walker: a circuit worked tick by tick on its cells, with or without probes.
#![tactic(auto)]

mod named;
mod step;
pub mod wiring;

ghost use Rattle.std.specs.Prelude.{◌≡◌, List, ℕ, ◌*◌, length};
ghost use Rattle.cells.specs.Block.{answer_of, with_report, ran_as, played_as, played, ticks_of};
ghost use Rattle.arity.specs.Table.{nodes, circuit as tree_of};
ghost use Rattle.calls.specs.Probes.{noted_as, recorded};
ghost use Rattle.calls.specs.Probed.{probes_of, probed_as, watches};
ghost use Rattle.walker.specs.Ready.{base, step_of, Playable, Surveyed, Walkable};
ghost use Rattle.walker.specs.Probing.{Watching, Recordable, Watchable};
ghost use Rattle.walker.specs.Walk.{walked_table, probed_circuit, probed_table};

use arity::circuit::Circuit;
use arity::rows::SHAPE;
use arity::{Counts, survey};
use beam::{fetched, keep, keep_list};
use cells::{Samples, block_ok};
use named::probes_ok;
use probes::{MARKS, mark, note};
use refusal::Refusal;
use step::Walk;
use word::limits::{CELLS, CONTROLS};
use word::{bit, index};

// The ticks of a call that is not refused, one after another, on the cells and the buffers that it needs and no more; in how many of them was a delay clipped?
fn play(
    walk: &Walk,
    root: usize,
    n: usize,
    m: usize,
    ticks: usize,
    inputs: &[u32],
    cells: &mut [u32],
    outputs: &mut [u32],
    latest: &mut [u32],
    recording: &mut [u32],
) -> u32
    requires playable { Playable walk.now.circuit.now root n m ticks inputs.now cells.old outputs.old }
    requires recordable { Recordable walk.now.circuit.now walk.now.marks.now ticks latest.old recording.old }
    ensures cells_value { played (step_of walk.now.circuit.now) (ticks_of n walk.now.controls.now ticks inputs.now) cells.old ≡ played_as outputs.new cells.new result }
    ensures by_index { (xs : List ℕ) → Watching walk.now.circuit.now xs (length latest.old) walk.now.marks.now
        → recorded (base walk.now.circuit.now) (tree_of walk.now.circuit.now) (probes_of xs) (ticks_of n walk.now.controls.now ticks inputs.now) cells.old latest.old
        ≡ noted_as latest.new recording.new }
{
    let count = latest.len();
    let mut clips: u32 = 0;
    for tick in 0..ticks {
        let ins = fetched(inputs, tick * n, n);
        let mut told = false;
        let y = walk.step(root, &ins, cells, latest, &mut told);
        note(walk.marks, root, y, latest);
        keep(outputs, tick * m, m, y);
        keep_list(recording, tick * count, latest);
        clips += bit(told);
    }
    clips
}

// A call that is not refused, on buffers that may be longer than needed. Here and below block and buffers stand one by one, as the C interface lends them.
fn walk_ticks(
    circuit: &Circuit,
    n: usize,
    m: usize,
    need: usize,
    probes: &[u32],
    ticks: usize,
    inputs: &[u32],
    controls: &[u32],
    cells: &mut [u32],
    outputs: &mut [u32],
    latest: &mut [u32],
    recording: &mut [u32],
) -> u32
    requires walkable { Walkable circuit.now n m need ticks inputs.now controls.now cells.old outputs.old }
    requires watchable { Watchable circuit.now probes.now ticks latest.old recording.old }
    ensures { probed_as (ran_as (with_report (ticks * m) result) cells.new outputs.new) latest.new recording.new
        ≡ watches (nodes circuit.now) (tree_of circuit.now) (probes_of probes.now) ticks inputs.now controls.now cells.old outputs.old latest.old recording.old }
{
    let mut set = [0u32; CONTROLS];
    keep_list(&mut set, 0, controls);
    let mut marks = [0u8; MARKS];
    mark(probes, &mut marks);
    let watched = probes.len() / 2;
    let total = ticks * m;
    let all = ticks * watched;
    let walk = Walk {
        circuit,
        controls: &set,
        marks: &marks,
    };
    play(
        &walk,
        circuit.nodes() - 1,
        n,
        m,
        ticks,
        inputs,
        &mut cells[..need],
        &mut outputs[..total],
        &mut latest[..watched],
        &mut recording[..all],
    )
}

// A call for an accepted table: refusal 11, then 14, 15 and 12; else its ticks.
fn walk_circuit(
    circuit: &Circuit,
    counts: Counts,
    probes: &[u32],
    ticks: u32,
    inputs: &[u32],
    controls: &[u32],
    cells: &mut [u32],
    outputs: &mut [u32],
    latest: &mut [u32],
    recording: &mut [u32],
) -> Result<Samples, Refusal>
    requires { Surveyed circuit.now counts.inputs counts.outputs counts.cells }
    ensures { probed_as (ran_as (answer_of result) cells.new outputs.new) latest.new recording.new
        ≡ probed_circuit (nodes circuit.now) (tree_of circuit.now) probes.now ticks inputs.now controls.now cells.old outputs.old latest.old recording.old }
{
    let need = index(counts.cells);
    if CELLS < need {
        return Err(Refusal::TooManyCells);
    }
    if !block_ok(counts.inputs, ticks, inputs, controls) {
        return Err(Refusal::WrongBlock);
    }
    if !probes_ok(circuit, probes) {
        return Err(Refusal::WrongProbes);
    }
    let t = index(ticks);
    let wide = index(counts.outputs);
    let total = t * wide;
    let watched = probes.len() / 2;
    if cells.len() < need || outputs.len() < total {
        return Err(Refusal::ShortBuffer);
    }
    if latest.len() < watched || recording.len() < t * watched {
        return Err(Refusal::ShortBuffer);
    }
    let clipped = walk_ticks(
        circuit,
        index(counts.inputs),
        wide,
        need,
        probes,
        t,
        inputs,
        controls,
        cells,
        outputs,
        latest,
        recording,
    );
    Ok(Samples {
        count: total as u32,
        clipped,
    })
}

// One call with probes, with any table: the table's refusals, then 11, 14, 15 and 12; else its output samples, the cells after them, what the probes show at
// each tick, and what they showed last.
pub fn walk_probed(
    table: &[u32],
    probes: &[u32],
    ticks: u32,
    inputs: &[u32],
    controls: &[u32],
    cells: &mut [u32],
    outputs: &mut [u32],
    latest: &mut [u32],
    recording: &mut [u32],
) -> Result<Samples, Refusal>
    ensures { probed_as (ran_as (answer_of result) cells.new outputs.new) latest.new recording.new
        ≡ probed_table table.now probes.now ticks inputs.now controls.now cells.old outputs.old latest.old recording.old }
{
    let mut shape = [0u32; SHAPE];
    let counts = survey(table, &mut shape)?;
    let circuit = Circuit::new(table, &shape);
    walk_circuit(
        &circuit, counts, probes, ticks, inputs, controls, cells, outputs, latest, recording,
    )
}

// One call without probes: the table's refusals, then 11, 14 and 12; else its output samples, and the cells after them.
pub fn walk(
    table: &[u32],
    ticks: u32,
    inputs: &[u32],
    controls: &[u32],
    cells: &mut [u32],
    outputs: &mut [u32],
) -> Result<Samples, Refusal>
    ensures { ran_as (answer_of result) cells.new outputs.new
        ≡ walked_table table.now ticks inputs.now controls.now cells.old outputs.old }
{
    let mut latest = [0u32; 1];
    let mut recording = [0u32; 1];
    walk_probed(
        table,
        &table[..0],
        ticks,
        inputs,
        controls,
        cells,
        outputs,
        &mut latest[..0],
        &mut recording[..0],
    )
}
