// Plays the cases of each row of the document's checks, and of its limits, on the entries.
#![tactic(auto)]

use std::io;

fn main(rt: HostRuntime) -> io::Result<()> {
    script::play(&mut rt.stdin(), &mut rt.stdout())
}
