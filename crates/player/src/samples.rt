// The input of a player: where the circuit ends, and the samples after it, a block of ticks at a time.
ghost use Rattle.std.specs.Prelude.{◌≡◌, ◌+◌, ◌≤◌, map, length};
ghost use Rattle.std.proofs.lemmas.List.Edits.{sets};
ghost use Rattle.player.specs.Samples.{circuit_part, words, word_in, is_tick, control_said, said as line_said, block_read, reads};
ghost use Rattle.player.specs.Promises.{FirstByte, FirstWord, ControlLine, kind_of};
ghost use Rattle.number.specs.Promises.{Unspaced};

use number::read_number;
use word::limits::LAST_SLOT;

// A block has at most 256 ticks.
const MOST_TICKS: usize = 256;

// A line has at most 65,536 bytes, with its line feed.
const LONGEST_LINE: usize = 65536;

// Why a block ends: no room for another tick, no whole line left, a control's slot and value, or a malformed line.
#[derive(Drop)]
pub enum Stop {
    Full,
    Rest,
    Control(u32, u32),
    Malformed,
}

// A block as read: its ticks, the bytes of its lines, and why it ends.
#[derive(Drop)]
pub struct Block {
    pub ticks: usize,
    pub bytes: usize,
    pub stop: Stop,
}

// What a line that is not malformed is: a tick, or a control's slot and value.
#[derive(Clone, Copy, Debug, PartialEq, Eq)]
enum Kind {
    Tick,
    Control(u32, u32),
}

// The bytes of the circuit: those before the first empty line.
pub fn circuit_bytes(input: &[u8]) -> usize
    ensures { result ≡ length (circuit_part input.now) }
{
    let mut last = b'\n';
    for (at, byte) in input.iter().enumerate() {
        if *byte == b'\n' && last == b'\n' {
            return at;
        }
        last = *byte;
    }
    input.len()
}

// Where the first such byte stands.
fn find(text: &[u8], byte: u8) -> Option<usize>
    ensures { FirstByte text.now byte result }
{
    text.iter().position(|other| *other == byte)
}

// Where the first word of a line begins, past the spaces before it.
fn begin(line: &[u8]) -> Option<usize>
    ensures { Unspaced line.now result }
{
    line.iter().position(|byte| *byte != b' ')
}

// The first word of a line, past the spaces before it, and what follows it.
fn next_word(line: &[u8]) -> Option<(&[u8], &[u8])>
    ensures { FirstWord line.now result }
{
    let rest = &line[begin(line)?..];
    let end = find(rest, b' ').unwrap_or(rest.len());
    Some(rest.split_at(end))
}

// Whether the line is of so many words, each a number.
fn is_tick(line: &[u8], inputs: usize) -> bool
    ensures { result ≡ is_tick inputs (words line.now) }
{
    let mut rest = line;
    let mut count: usize = 0;
    while let Some((word, behind)) = next_word(rest) {
        if read_number(word).is_none() {
            return false;
        }
        count += 1;
        rest = behind;
    }
    count == inputs
}

// The words of a line go into the samples from `from` on.
fn store(line: &[u8], samples: &mut [u32], from: usize)
    requires { from + length (words line.now) ≤ length samples.old }
    ensures { samples.new ≡ sets samples.old from (map word_in (words line.now)) }
{
    let mut rest = line;
    let mut next = from;
    while let Some((word, behind)) = next_word(rest) {
        samples[next] = read_number(word).unwrap_or(0);
        next += 1;
        rest = behind;
    }
}

// Slot and value of a control.
fn setting(line: &[u8]) -> Option<Kind>
    ensures { result ≡ kind_of (control_said (words line.now)) }
{
    let (slot, rest) = next_word(line)?;
    let slot = read_number(slot)?;
    let (value, rest) = next_word(rest)?;
    let value = read_number(value)?;
    if next_word(rest).is_some() {
        return None;
    }
    if slot > LAST_SLOT {
        return None;
    }
    Some(Kind::Control(slot, value))
}

// What follows the first word of a control's line; none of another line.
fn control(line: &[u8]) -> Option<&[u8]>
    ensures { ControlLine line.now result }
{
    let (word, rest) = next_word(line)?;
    (word == b"control".as_slice()).then_some(rest)
}

// What a line says, without its line feed; none where it is malformed.
fn said(line: &[u8], inputs: usize) -> Option<Kind>
    ensures { result ≡ kind_of (line_said inputs line.now) }
{
    if line.len() >= LONGEST_LINE {
        return None;
    }
    if let Some(rest) = control(line) {
        return setting(rest);
    }
    is_tick(line, inputs).then_some(Kind::Tick)
}

// A block that ends after so many ticks and bytes.
fn stopped(ticks: usize, bytes: usize, stop: Stop) -> Block
    ensures { result ≡ record { ticks = ticks; bytes = bytes; stop = stop } }
{
    Block { ticks, bytes, stop }
}

// Reads whole lines, as long as each is a tick and there is room for it: the inputs go into the samples one after another.
pub fn read_block(text: &[u8], inputs: usize, samples: &mut [u32]) -> Block
    ensures { block_read result samples.new ≡ reads inputs text.now samples.old }
{
    let mut at: usize = 0;
    let mut ticks: usize = 0;
    let mut next: usize = 0;
    // no `for`: each line says where the next begins
    loop {
        if ticks == MOST_TICKS {
            return stopped(ticks, at, Stop::Full);
        }
        if samples.len() - next < inputs {
            return stopped(ticks, at, Stop::Full);
        }
        let Some(length) = find(&text[at..], b'\n') else {
            return stopped(ticks, at, Stop::Rest);
        };
        let end = at + length;
        match said(&text[at..end], inputs) {
            None => return stopped(ticks, at, Stop::Malformed),
            Some(Kind::Control(slot, value)) => return stopped(
                ticks,
                end + 1,
                Stop::Control(slot, value),
            ),
            Some(Kind::Tick) => {
                store(&text[at..end], samples, next);
                next += inputs;
                ticks += 1;
                at = end + 1;
            }
        }
    }
}
