// The lines that load, walk and run: their numbers say how much of each buffer is lent.
use crate::show;
use crate::tables::UNTOUCHED;
use crate::text::{put_run, read_numbers};
use crate::workspace::Workspace;
use cells::Samples;
use refusal::Refusal;
use std::io;
use std::io::Write;
use word::index;

// The longest recording.
const RECORDING: usize = 65600;

// `load N` on the first `lent` cells of a memory.
fn load_one<W: Write>(out: &mut W, named: u32, lent: u32, memory: &mut [u32]) -> io::Result<()> {
    if let Some(cells) = memory.get_mut(..index(lent)) {
        show::count(out, cells::load(named, cells))?;
    }
    Ok(())
}

// `load N L`
pub fn load<W: Write>(workspace: &mut Workspace, out: &mut W, arguments: &[u8]) -> io::Result<()> {
    let [named, lent] = read_numbers::<2>(arguments);
    write!(out, "load")?;
    load_one(out, named, lent, &mut workspace.walked)?;
    load_one(out, named, lent, &mut workspace.ran)?;
    writeln!(out)
}

// A block of `T C O`, worked on the first C cells of a memory and O numbers of a buffer; gives whether there are so many.
fn block<W: Write, F: FnOnce(u32, &mut [u32], &mut [u32]) -> Result<Samples, Refusal>>(
    out: &mut W,
    name: &str,
    arguments: &[u8],
    memory: &mut [u32],
    buffer: &mut [u32],
    entry: F,
) -> io::Result<bool>
    requires { F.IsAlwaysCallable entry }
{
    let [ticks, cells, outputs] = read_numbers::<3>(arguments);
    put_run(buffer, 0, UNTOUCHED, outputs);
    let Some(cells) = memory.get_mut(..index(cells)) else {
        return Ok(false);
    };
    let Some(outputs) = buffer.get_mut(..index(outputs)) else {
        return Ok(false);
    };
    write!(out, "{name}")?;
    show::report(out, entry(ticks, cells, outputs))?;
    show::buffer(out, outputs)?;
    Ok(true)
}

// `walk T C O`
pub fn walk<W: Write>(workspace: &mut Workspace, out: &mut W, arguments: &[u8]) -> io::Result<()> {
    let table = workspace.table.set();
    let inputs = workspace.inputs.set();
    let controls = workspace.controls.set();
    let memory = &mut workspace.walked;
    let buffer = &mut workspace.buffer;
    block(
        out,
        "walk",
        arguments,
        memory,
        buffer,
        |ticks, cells, outputs| { walker::walk(table, ticks, inputs, controls, cells, outputs) },
    )?;
    Ok(())
}

// `run T C O`
pub fn run<W: Write>(workspace: &mut Workspace, out: &mut W, arguments: &[u8]) -> io::Result<()> {
    let code = workspace.code.set();
    let inputs = workspace.inputs.set();
    let controls = workspace.controls.set();
    let memory = &mut workspace.ran;
    let buffer = &mut workspace.buffer;
    block(
        out,
        "run",
        arguments,
        memory,
        buffer,
        |ticks, cells, outputs| { flat::run(code, ticks, inputs, controls, cells, outputs) },
    )?;
    Ok(())
}

// `probed T C O L R`: the latest values and the recording on lines of their own.
pub fn walk_probed<W: Write>(
    workspace: &mut Workspace,
    out: &mut W,
    arguments: &[u8],
) -> io::Result<()> {
    let [_, _, _, latest, recorded] = read_numbers::<5>(arguments);
    let mut recording = [UNTOUCHED; RECORDING];
    let table = workspace.table.set();
    let probes = workspace.probes.set();
    let inputs = workspace.inputs.set();
    let controls = workspace.controls.set();
    let memory = &mut workspace.walked;
    let buffer = &mut workspace.buffer;
    let Some(latest) = workspace.latest.get_mut(..index(latest)) else {
        return Ok(());
    };
    let Some(recording) = recording.get_mut(..index(recorded)) else {
        return Ok(());
    };
    let walked = block(
        out,
        "probed",
        arguments,
        memory,
        buffer,
        |ticks, cells, outputs| {
            walker::walk_probed(
                table, probes, ticks, inputs, controls, cells, outputs, latest, recording,
            )
        },
    )?;
    if walked {
        write!(out, "latest")?;
        show::list(out, latest)?;
        write!(out, "recorded")?;
        show::list(out, recording)?;
    }
    Ok(())
}

// `cells C`
pub fn cells<W: Write>(workspace: &mut Workspace, out: &mut W, arguments: &[u8]) -> io::Result<()> {
    let [count] = read_numbers::<1>(arguments);
    write!(out, "walked")?;
    show::first(out, &workspace.walked, count)?;
    write!(out, "ran")?;
    show::first(out, &workspace.ran, count)
}
