// Cells: the memory of a circuit between ticks. A delay's line is a position and a ring of d samples.
#![tactic(auto)]

ghost use Rattle.std.specs.Prelude.{◌≡◌, ◌++◌, ◌+◌, ◌-◌, ◌*◌, ◌%◌, ◌^◌, ◌<◌, ◌≤◌, length, get_or, drop};
ghost use Rattle.word.specs.Choice.{◌or◌};
ghost use Rattle.word.specs.Limits.{widest};
ghost use Rattle.word.specs.Word.{clamp as clamp_of, clipped as clipped_of};
ghost use Rattle.word.specs.Tick.{zeros};
ghost use Rattle.refusal.specs.Answer.{answer_of};
ghost use Rattle.refusal.specs.Outcome.{outcome};
ghost use Rattle.cells.specs.Load.{loaded};
ghost use Rattle.cells.specs.Block.{block_ok};
ghost use Rattle.cells.specs.Delay.{position as position_of, delayed as delayed_of, moved as moved_of};

use refusal::Refusal;
use word::index;
use word::limits::{CELLS, CONTROLS, MOST_TICKS};

// From here on words stand for negative numbers.
const HALF: u32 = 2147483648;

// How far back, from 0 to d. What is not clipped is tested first, by the one comparison that tells.
fn clamp(amount: u32, d: usize) -> usize
    requires { d < 2 ^ 31 }
    ensures { (result ≡ clamp_of amount d) × (result ≤ d) }
{
    let a = index(amount);
    if a <= d {
        return a;
    }
    if amount < HALF {
        return d;
    }
    0
}

// Is the amount outside 0 to d? As a word, a negative one is above every d.
fn outside(amount: u32, d: usize) -> bool
    requires { d < 2 ^ 31 }
    ensures { result ≡ clipped_of amount d }
{
    d < index(amount)
}

// Where the ring is written next.
fn position(p: u32, d: usize) -> usize
    requires { 0 < d }
    ensures { (result ≡ position_of d p) × (result < d) }
{
    let at = index(p);
    if at < d {
        return at;
    }
    0
}

// The place that lies so far back from p in a ring of d; no division.
fn behind(p: usize, back: usize, d: usize) -> usize
    requires { (p < d) × ((0 < back) × ((back ≤ d) × (d < 2 ^ 31))) }
    ensures { (result ≡ (p + d - back) % d) × (result < d) }
{
    if p < back {
        return p + d - back;
    }
    p - back
}

// The place after p.
fn after(p: usize, d: usize) -> usize
    requires { (p < d) × (d < 2 ^ 31) }
    ensures { (result ≡ (p + 1) % d) × (result < d) }
{
    let q = p + 1;
    if q < d {
        return q;
    }
    0
}

// What a delay gives: the sample so far back in its line, whose position is p.
fn tap(line: &[u32], p: usize, input: u32, amount: u32, d: usize) -> u32
    requires line_len { (length line.now ≡ d + 1) × (d < 2 ^ 31) }
    requires p_value { (p ≡ position_of d (get_or line.now 0 0)) × (p < d) }
    ensures { result ≡ delayed_of 0 d input amount line.now }
{
    let back = clamp(amount, d);
    if back == 0 {
        return input;
    }
    line[1 + behind(p, back, d)]
}

// The input into the ring, and the position, p, on by one.
fn moved(line: &mut [u32], p: usize, input: u32, d: usize)
    requires line_len { (length line.old ≡ d + 1) × (d < 2 ^ 31) }
    requires p_value { (p ≡ position_of d (get_or line.old 0 0)) × (p < d) }
    ensures { line.new ≡ moved_of 0 d input line.old }
{
    line[1 + p] = input;
    line[0] = after(p, d) as u32;
}

// What a delay step gives: its value, and whether the amount was outside 0 to d. Both at once, so no Option.
#[derive(Drop)]
pub struct Delayed {
    pub value: u32,
    pub clipped: bool,
}

// One step of a delay on its own line: the position, then the ring.
pub fn delay_step(line: &mut [u32], input: u32, amount: u32, d: usize) -> Delayed
    requires { (length line.old ≡ d + 1) × (d < 2 ^ 31) }
    ensures { (result.value ≡ delayed_of 0 d input amount line.old) × (line.new ≡ moved_of 0 d input line.old) × (result.clipped ≡ clipped_of amount d) }
{
    let clipped = outside(amount, d);
    if d == 0 {
        return Delayed {
            value: input,
            clipped,
        };
    }
    let p = position(line[0], d);
    let value = tap(line, p, input, amount, d);
    moved(line, p, input, d);
    Delayed { value, clipped }
}

// The step of the delay whose line begins at base: that part of the cells is handed on.
pub fn delay_at(cells: &mut [u32], base: usize, d: usize, input: u32, amount: u32) -> Delayed
    requires { (base + (d + 1) ≤ length cells.old) × (d < 2 ^ 31) }
    ensures { (result.value ≡ delayed_of base d input amount cells.old) × (cells.new ≡ moved_of base d input cells.old) × (result.clipped ≡ clipped_of amount d) }
{
    let end = base + (d + 1);
    delay_step(&mut cells[base..end], input, amount, d)
}

// Told that a delay was clipped, or told so before.
pub fn tell(told: &mut bool, clipped: bool)
    ensures { told.new ≡ (told.old or clipped) }
{
    *told |= clipped;
}

// The first count cells are set to 0.
pub fn clear(cells: &mut [u32], count: usize)
    requires { count ≤ length cells.old }
    ensures { cells.new ≡ zeros count ++ drop count cells.old }
{
    cells[..count].fill(0);
}

// The load: the named count of cells, which it calls for, is set to 0; or its refusal.
pub fn load(named: u32, cells: &mut [u32]) -> Result<u32, Refusal>
    ensures { outcome (answer_of result) cells.new ≡ loaded named cells.old }
{
    let count = index(named);
    if count > CELLS {
        return Err(Refusal::TooManyCells);
    }
    if count > cells.len() {
        return Err(Refusal::ShortBuffer);
    }
    clear(cells, count);
    Ok(named)
}

// What walker and runner answer: how many output samples a call calls for, and in how many of its ticks a delay was clipped.
#[derive(Clone, Copy)]
pub struct Samples {
    pub count: u32,
    pub clipped: u32,
}

// Does row 14 let a call pass that is for n inputs a tick?
pub fn block_ok(n: u32, ticks: u32, inputs: &[u32], controls: &[u32]) -> bool
    requires { n ≤ widest }
    ensures { result ≡ block_ok n ticks inputs.now controls.now }
{
    ticks <= MOST_TICKS && (inputs.len() == index(ticks) * index(n) && controls.len() == CONTROLS)
}
