// What the programs do with their input and output; the libraries below work on slices.
#![tactic(auto)]

mod held;
mod messages;
mod playing;
mod translating;

pub use held::read_full;
pub use playing::{play, play_held};
pub use translating::translate;
