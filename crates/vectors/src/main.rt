// Plays the random cases of the other implementation on the entries.
#![tactic(auto)]

use std::io;

fn main(rt: HostRuntime) -> io::Result<()> {
    script::play(&mut rt.stdin(), &mut rt.stdout())
}
