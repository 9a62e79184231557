// A circuit on samples that stand in text: the lines of samples read, the lines of ticks put.
#![tactic(auto)]

mod samples;
mod ticks;

pub use samples::{Block, Stop, circuit_bytes, read_block};
pub use ticks::put_ticks;
