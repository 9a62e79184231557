// The translator on further files: 512 lines, what lies about that limit, refusals, and nothing at all.
#![tactic(auto)]

use std::rt::Files;
use std::{fs, io};

// A file's name, and what the translator prints of it.
fn run<R: Files + Print + Eprint>(rt: &R, name: &str) -> io::Result<()> {
    println!(rt; "{name}")?;
    match fs::open(rt, name) {
        Ok(mut file) => console::translate(&mut file, &mut io::writer(rt)),
        Err(error) => eprintln!(rt; "{name}: {error}"),
    }
}

fn main(rt: HostRuntime) -> io::Result<()> {
    for name in [
        "lines_512",
        "lines_512_and_a_feed",
        "lines_512_and_a_byte",
        "lines_513",
        "wrong_column",
        "unknown_kind",
        "nothing",
    ] {
        run(&rt, name)?;
    }
    Ok(())
}
