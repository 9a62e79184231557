// Plays the examples of docs/FORMAT.md on the entries.
#![tactic(auto)]

use std::io;

fn main(rt: HostRuntime) -> io::Result<()> {
    script::play(&mut rt.stdin(), &mut rt.stdout())
}
