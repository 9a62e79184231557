// The lines that check, read, join, write, translate and print: their numbers say how much of a buffer is lent.
use crate::lists::FILE_BYTES;
use crate::show;
use crate::text::{put_run, read_numbers};
use crate::workspace::Workspace;
use listing::PRINT_BYTES;
use refusal::Refusal;
use std::io;
use std::io::Write;
use word::index;

// What a lent buffer of numbers holds before the call.
pub const UNTOUCHED: u32 = 9;

pub fn check<W: Write>(out: &mut W, table: &[u32]) -> io::Result<()> {
    write!(out, "check")?;
    let answer = arity::check(table).map(|n| [n.inputs, n.outputs, n.instructions, n.cells]);
    show::numbers(out, answer)?;
    writeln!(out)
}

// A call that fills the first `lent` numbers of a buffer; gives the count that it answers.
fn fill<W: Write, F: FnOnce(&mut [u32]) -> Result<u32, Refusal>>(
    out: &mut W,
    name: &str,
    buffer: &mut [u32],
    lent: u32,
    entry: F,
) -> io::Result<Option<u32>>
    requires { F.IsAlwaysCallable entry }
{
    put_run(buffer, 0, UNTOUCHED, lent);
    let Some(lent) = buffer.get_mut(..index(lent)) else {
        return Ok(None);
    };
    write!(out, "{name}")?;
    let count = show::count(out, entry(lent))?;
    show::buffer(out, lent)?;
    Ok(count)
}

// `read L`
pub fn read<W: Write>(workspace: &mut Workspace, out: &mut W, arguments: &[u8]) -> io::Result<()> {
    let [lent] = read_numbers::<1>(arguments);
    let file = workspace.file.set();
    let buffer = &mut workspace.buffer;
    let nodes = fill(out, "read", buffer, lent, |table| column::read(file, table))?;
    if let Some(nodes) = nodes {
        workspace.table.copy(&workspace.buffer, 3 * index(nodes));
    }
    Ok(())
}

// `join K L`
pub fn join<W: Write>(workspace: &mut Workspace, out: &mut W, arguments: &[u8]) -> io::Result<()> {
    let [kind, lent] = read_numbers::<2>(arguments);
    let first = workspace.table.set();
    let second = workspace.second.set();
    let buffer = &mut workspace.buffer;
    let numbers = fill(out, "join", buffer, lent, |joined| {
        joining::join(kind, first, second, joined)
    })?;
    if let Some(numbers) = numbers {
        workspace.table.copy(&workspace.buffer, index(numbers));
    }
    Ok(())
}

// `translate L`
pub fn translate<W: Write>(
    workspace: &mut Workspace,
    out: &mut W,
    arguments: &[u8],
) -> io::Result<()> {
    let [lent] = read_numbers::<1>(arguments);
    let table = workspace.table.set();
    let buffer = &mut workspace.buffer;
    let numbers = fill(out, "translate", buffer, lent, |code| {
        translator::translate(table, code)
    })?;
    if let Some(numbers) = numbers {
        workspace.code.copy(&workspace.buffer, index(numbers));
    }
    Ok(())
}

// `write L`
pub fn write<W: Write>(workspace: &mut Workspace, out: &mut W, arguments: &[u8]) -> io::Result<()> {
    let [lent] = read_numbers::<1>(arguments);
    let mut buffer = [b'.'; FILE_BYTES];
    let Some(lent) = buffer.get_mut(..index(lent)) else {
        return Ok(());
    };
    write!(out, "write")?;
    let bytes = show::count(out, column::write(workspace.table.set(), lent))?;
    writeln!(out, " |")?;
    out.write_all(lent)?;
    writeln!(out)?;
    if let Some(bytes) = bytes {
        workspace.file.copy(&buffer, index(bytes));
    }
    Ok(())
}

// The translator's print of a file.
pub fn print<W: Write>(out: &mut W, file: &[u8]) -> io::Result<()> {
    let mut text = [0u8; PRINT_BYTES];
    let bytes = listing::print(file, &mut text);
    out.write_all(&text[..bytes])
}
