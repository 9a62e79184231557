// Reads a column file from standard input and prints its code, or number and place of the refusal.
#![tactic(auto)]

use std::io;

fn main(rt: HostRuntime) -> io::Result<()> {
    console::translate(&mut rt.stdin(), &mut rt.stdout())
}
