// Ticks as text: a line a tick, its outputs as numerals with a space between.
ghost use Rattle.std.specs.Prelude.{◌+◌, ◌*◌, ◌≤◌, length};
ghost use Rattle.word.specs.Limits.{widest};
ghost use Rattle.number.specs.Put.{Put, Begins};
ghost use Rattle.player.specs.Ticks.{tick_line, ticks_text, block_text};

use number::put_numeral;
use word::limits::BEAM;

// The line of a tick, from `from` on; gives where the next line begins.
fn put_tick(outputs: &[u32], text: &mut [u8], from: usize) -> usize
    requires { from + length (tick_line outputs.now) ≤ length text.old }
    ensures { Put (tick_line outputs.now) text.old from result text.new }
{
    if outputs.len() == 0 {
        text[from] = b'\n';
        return from + 1;
    }
    let last = outputs.len() - 1;
    let mut at: usize = from;
    for j in 0..last {
        at = put_numeral(outputs[j], b' ', text, at);
    }
    put_numeral(outputs[last], b'\n', text, at)
}

// The lines of so many ticks, from the front of the text.
fn put_lines(samples: &[u32], ticks: usize, outputs: usize, text: &mut [u8]) -> usize
    requires { (ticks * outputs ≤ length samples.now) × ((outputs ≤ widest) × (384 * ticks ≤ length text.old)) }
    ensures { Put (ticks_text outputs ticks samples.now) text.old 0 result text.new }
{
    let mut at: usize = 0;
    // chunks would be no plainer: there are none of a size of 0, the outputs of some circuits
    for tick in 0..ticks {
        let first = outputs * tick;
        let end = first + outputs;
        at = put_tick(&samples[first..end], text, at);
    }
    at
}

// The lines of a block of ticks, whose outputs stand one after another; gives how many bytes they have.
pub fn put_ticks(
    samples: &[u32; 8192],
    ticks: usize,
    outputs: usize,
    text: &mut [u8; 98304],
) -> usize
    ensures { Begins (block_text outputs ticks samples.now) text.old result text.new }
{
    if outputs > BEAM {
        return 0;
    }
    if ticks > 256 {
        return 0;
    }
    put_lines(samples, ticks, outputs, text)
}
