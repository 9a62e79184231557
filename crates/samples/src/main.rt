// Plays the document's cases on the entries.
#![tactic(auto)]

use std::io;

fn main(rt: HostRuntime) -> io::Result<()> {
    script::play(&mut rt.stdin(), &mut rt.stdout())
}
