// The engine for other languages: every entry over slices, its answer in one number.
// No entry asks anything of its caller, so that no misuse of the numbers lent is undefined.
#![tactic(auto)]

ghost use Rattle.std.specs.Prelude.{◌≡◌, ◌≤◌};
ghost use Rattle.word.specs.Limits.{most_ticks};
ghost use Rattle.refusal.specs.Answer.{refusal_of, answer_of as counted_of};
ghost use Rattle.refusal.specs.Outcome.{outcome};
ghost use Rattle.cells.specs.Block.{with_report, report_of, answer_of};
ghost use Rattle.cells.specs.Load.{loaded};
ghost use Rattle.column.specs.File.{reading, writing};
ghost use Rattle.joining.specs.Join.{joined_tables};
ghost use Rattle.walker.specs.Walk.{walked_table, probed_table};
ghost use Rattle.translator.specs.Translate.{translated_table};
ghost use Rattle.flat.specs.Run.{ran};
ghost use Rattle.circuit.specs.Encoded.{encoded};
ghost use Rattle.circuit.specs.Decoded.{clipped_in};
ghost use Rattle.circuit.specs.Report.{reporting};

use cells::Samples;
use refusal::Refusal;

// Where the parts of an answer begin: the refusal's number, and the report of walker and runner.
const UPPER: u64 = 4294967296;

const REPORT: u64 = 281474976710656;

// The answer of a refusal.
fn refused(refusal: Refusal) -> u64
    ensures { result ≡ encoded (refusal_of refusal) }
{
    refusal.number() as u64 * UPPER + refusal.place() as u64
}

// The answer of a call that counts one thing.
fn counted(answer: Result<u32, Refusal>) -> u64
    ensures { result ≡ encoded (counted_of answer) }
{
    match answer {
        Ok(count) => count as u64,
        Err(refusal) => refused(refusal),
    }
}

// The answer of an accepted walk or run: its samples, and its report.
fn worked(samples: Samples) -> u64
    requires { samples.clipped ≤ most_ticks }
    ensures { result ≡ encoded (with_report samples.count samples.clipped) }
{
    samples.clipped as u64 * REPORT + samples.count as u64
}

// The answer of a walk, with probes or without.
fn reported(answer: Result<Samples, Refusal>) -> u64
    requires { report_of (answer_of answer) ≤ most_ticks }
    ensures { result ≡ encoded (answer_of answer) }
{
    match answer {
        Ok(samples) => worked(samples),
        Err(wrong) => refused(wrong),
    }
}

// Inputs, outputs, instructions and cells of a table into the first four of counts.
fn report(table: &[u32], counts: &mut [u32]) -> Result<u32, Refusal>
    ensures { outcome (counted_of result) counts.new ≡ reporting table.now counts.old }
{
    let found = arity::check(table)?;
    if counts.len() < 4 {
        return Err(Refusal::ShortBuffer);
    }
    counts[0] = found.inputs;
    counts[1] = found.outputs;
    counts[2] = found.instructions;
    counts[3] = found.cells;
    Ok(4)
}

// The check: inputs, outputs, instructions and cells into the first four of counts.
#[unsafe(no_mangle)]
pub extern "C" fn circuit_check(table: &[u32], counts: &mut [u32]) -> u64
    ensures answer { result ≡ encoded (reporting table.now counts.old).answer }
    ensures counts { counts.new ≡ (reporting table.now counts.old).buffer }
{
    counted(report(table, counts))
}

// The reader: a column file into a table.
#[unsafe(no_mangle)]
pub extern "C" fn circuit_read(file: &[u8], table: &mut [u32]) -> u64
    ensures answer { result ≡ encoded (reading file.now table.old).answer }
    ensures table { table.new ≡ (reading file.now table.old).buffer }
{
    counted(column::read(file, table))
}

// The writer: a table into a column file.
#[unsafe(no_mangle)]
pub extern "C" fn circuit_write(table: &[u32], file: &mut [u8]) -> u64
    ensures answer { result ≡ encoded (writing table.now file.old).answer }
    ensures file { file.new ≡ (writing table.now file.old).buffer }
{
    counted(column::write(table, file))
}

// Two tables joined by a node of a kind from 7 to 11.
#[unsafe(no_mangle)]
pub extern "C" fn circuit_join(kind: u32, first: &[u32], second: &[u32], joined: &mut [u32]) -> u64
    ensures answer { result ≡ encoded (joined_tables kind first.now second.now joined.old).answer }
    ensures joined { joined.new ≡ (joined_tables kind first.now second.now joined.old).buffer }
{
    counted(joining::join(kind, first, second, joined))
}

// The translator: a table into flat code.
#[unsafe(no_mangle)]
pub extern "C" fn circuit_translate(table: &[u32], code: &mut [u32]) -> u64
    ensures answer { result ≡ encoded (translated_table table.now code.old).answer }
    ensures code { code.new ≡ (translated_table table.now code.old).buffer }
{
    counted(translator::translate(table, code))
}

// The load: the named count of cells is set to 0.
#[unsafe(no_mangle)]
pub extern "C" fn circuit_load(named: u32, cells: &mut [u32]) -> u64
    ensures answer { result ≡ encoded (loaded named cells.old).answer }
    ensures cells { cells.new ≡ (loaded named cells.old).buffer }
{
    counted(cells::load(named, cells))
}

// The walker: a block of ticks of a table.
#[unsafe(no_mangle)]
pub extern "C" fn circuit_walk(
    table: &[u32],
    ticks: u32,
    inputs: &[u32],
    controls: &[u32],
    cells: &mut [u32],
    outputs: &mut [u32],
) -> u64
    ensures answer { result ≡ encoded (walked_table table.now ticks inputs.now controls.now cells.old outputs.old).answer }
    ensures cells { cells.new ≡ (walked_table table.now ticks inputs.now controls.now cells.old outputs.old).cells }
    ensures outputs { outputs.new ≡ (walked_table table.now ticks inputs.now controls.now cells.old outputs.old).outputs }
{
    reported(walker::walk(table, ticks, inputs, controls, cells, outputs))
}

// The walker with probes: beside a block's samples what the probes show at each of its ticks, and what they showed last.
#[unsafe(no_mangle)]
pub extern "C" fn circuit_walk_probed(
    table: &[u32],
    probes: &[u32],
    ticks: u32,
    inputs: &[u32],
    controls: &[u32],
    cells: &mut [u32],
    outputs: &mut [u32],
    latest: &mut [u32],
    recording: &mut [u32],
) -> u64
    ensures answer { result ≡ encoded (probed_table table.now probes.now ticks inputs.now controls.now cells.old outputs.old latest.old recording.old).ran.answer }
    ensures cells { cells.new ≡ (probed_table table.now probes.now ticks inputs.now controls.now cells.old outputs.old latest.old recording.old).ran.cells }
    ensures outputs { outputs.new ≡ (probed_table table.now probes.now ticks inputs.now controls.now cells.old outputs.old latest.old recording.old).ran.outputs }
    ensures latest { latest.new ≡ (probed_table table.now probes.now ticks inputs.now controls.now cells.old outputs.old latest.old recording.old).latest }
    ensures recording { recording.new ≡ (probed_table table.now probes.now ticks inputs.now controls.now cells.old outputs.old latest.old recording.old).recording }
{
    reported(walker::walk_probed(
        table, probes, ticks, inputs, controls, cells, outputs, latest, recording,
    ))
}

// The runner: a block of ticks of a flat code.
#[unsafe(no_mangle)]
pub extern "C" fn circuit_run(
    code: &[u32],
    ticks: u32,
    inputs: &[u32],
    controls: &[u32],
    cells: &mut [u32],
    outputs: &mut [u32],
) -> u64
    ensures answer { result ≡ encoded (ran code.now ticks inputs.now controls.now cells.old outputs.old).answer }
    ensures cells { cells.new ≡ (ran code.now ticks inputs.now controls.now cells.old outputs.old).cells }
    ensures outputs { outputs.new ≡ (ran code.now ticks inputs.now controls.now cells.old outputs.old).outputs }
{
    match flat::run(code, ticks, inputs, controls, cells, outputs) {
        Ok(ran) => worked(ran),
        Err(why) => refused(why),
    }
}

// The report in the answer of a walk or a run: in how many ticks a delay was clipped; 0 in any other answer.
#[unsafe(no_mangle)]
pub extern "C" fn circuit_clipped(answer: u64) -> u32
    ensures { result ≡ clipped_in answer }
{
    (answer / REPORT) as u32
}
