// Scripts over the entries of the engine: docs/SCRIPT.md has their form. A read or a write that failed ends a script with its
// error, the only one.
#![tactic(auto)]

mod blocks;
mod lists;
mod show;
mod tables;
mod text;
mod workspace;

ghost use Rattle.std.specs.Prelude.{◌-◌, length};

use std::io;
use std::io::{Read, Write};
use text::split_line;
use workspace::Workspace;

// A script is read in pieces, of which no line is in two.
const PIECE: usize = 65536;

const MOST_PIECES: usize = 1000;

// A piece of a script, line by line.
fn play_piece<W: Write>(workspace: &mut Workspace, out: &mut W, piece: &[u8]) -> io::Result<()> {
    let mut rest = piece;
    while let Some((line, behind)) = split_line(rest) {
        let taken = workspace.play_line(out, line, behind)?;
        rest = &behind[taken.min(behind.len())..];
    }
    Ok(())
}

// Plays a script.
pub fn play<R: Read, W: Write>(from: &mut R, out: &mut W) -> io::Result<()> {
    let mut workspace = Workspace::new();
    let mut piece = [0u8; PIECE];
    for _ in 0..MOST_PIECES {
        let count = console::read_full(from, &mut piece)?;
        if count == 0 {
            break;
        }
        play_piece(&mut workspace, out, &piece[..count])?;
    }
    Ok(())
}
