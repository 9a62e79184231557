// Plays a circuit on samples: standard input holds a column file, an empty line, and a line of samples a tick.
#![tactic(auto)]

use std::io;

fn main(rt: HostRuntime) -> io::Result<()> {
    console::play(&mut rt.stdin(), &mut rt.stdout())
}
