// A circuit played on the samples behind it: the column file, an empty line, then a line a tick. The only error is that of
// a read or a write that failed, and it is answered at once: of what was lent to be changed only its length is known then.
ghost use Rattle.std.specs.Prelude.{◌≡◌, ◌*◌, ◌<◌, ◌≤◌, length, set, IfSome, IfOk, OnOk};
ghost use Rattle.std.specs.Io.KnownBytes.{Keeps};
ghost use Rattle.flat.specs.Code.{input_count};
ghost use Rattle.flat.specs.Steps.{Header};
ghost use Rattle.console.specs.Held.{Stands};
ghost use Rattle.console.specs.Coded.{Coded};
ghost use Rattle.console.specs.Block.{BlockPut, BlockPlayed};

use crate::held::{Rest, read_more, read_on};
use crate::messages::{print_malformed, print_refusal};
use column::ENOUGH_BYTES;
use flat::format::{CODE_NUMBERS, INPUTS, OUTPUTS};
use player::{Stop, circuit_bytes, put_ticks, read_block};
use refusal::Refusal;
use std::io;
use std::io::{Read, Write};
use word::index;
use word::limits::{CELLS, CONTROLS, TABLE_NUMBERS};

// Reads until the empty line behind the circuit is there, the input ends, or the file has a 513th line; gives where the
// bytes that are held end.
fn read_circuit<R: Read>(from: &mut R, buffer: &mut [u8], held: usize) -> io::Result<usize>
    requires { held ≤ length buffer.old }
    ensures { IfOk result (λ n. n ≤ length buffer.new) }
{
    let mut end: usize = held;
    // no `for`: each read says how many bytes it gave
    while end < ENOUGH_BYTES && circuit_bytes(&buffer[..end]) == end {
        let next = read_more(from, buffer, end)?;
        if next == end {
            break;
        }
        end = next;
    }
    Ok(end)
}

// The code of a table; gives how many numbers it has.
fn translate_table(table: &[u32], code: &mut [u32; CODE_NUMBERS]) -> Result<usize, Refusal>
    ensures { IfOk result (Coded code.new) }
{
    let numbers = translator::translate(table, code)?;
    Ok(index(numbers))
}

// The same of a column file.
fn translate_file(file: &[u8], code: &mut [u32; CODE_NUMBERS]) -> Result<usize, Refusal>
    ensures { IfOk result (Coded code.new) }
{
    let mut table = [0u32; TABLE_NUMBERS];
    let nodes = column::read(file, &mut table)?;
    let count = 3 * index(nodes);
    translate_table(&table[..count], code)
}

// A code with what it is played on: its controls and its cells.
#[derive(Drop)]
struct Player<'a> {
    code: &'a [u32],
    controls: [u32; CONTROLS],
    cells: [u32; CELLS],
    ghost headed: { Header code.now },
}

impl<'a> Player<'a> {
    // A code on cleared cells, with controls that are 0.
    fn new(code: &'a [u32]) -> Self
        requires { Header code.now }
    {
        Player {
            code,
            controls: [0; CONTROLS],
            cells: [0; CELLS],
        }
    }

    // Runs a block of ticks and puts their lines into the text; gives how many bytes these have.
    fn put_block(&mut self, ticks: usize, samples: &[u32], text: &mut [u8; 98304]) -> usize
        requires { (ticks ≤ 256) × (ticks * input_count self.old.code.now ≤ length samples.now) }
        ensures put { BlockPut self.old.code.now ticks samples.now self.old.controls self.old.cells text.old result self.new.cells text.new }
        ensures code { self.new.code.now ≡ self.old.code.now }
        ensures controls { self.new.controls ≡ self.old.controls }
    {
        let given = ticks * index(self.code[INPUTS]);
        let mut outputs = [0u32; 8192];
        let _ = flat::run(
            self.code,
            ticks as u32,
            &samples[..given],
            &self.controls,
            &mut self.cells,
            &mut outputs,
        );
        put_ticks(&outputs, ticks, index(self.code[OUTPUTS]), text)
    }

    // Plays a block of ticks and writes its lines; of no tick nothing.
    fn play_ticks<W: Write>(&mut self, out: &mut W, ticks: usize, samples: &[u32]) -> io::Result<()>
        requires { (ticks ≤ 256) × (ticks * input_count self.old.code.now ≤ length samples.now) }
        ensures played { 0 < ticks → OnOk result (BlockPlayed self.old.code.now ticks samples.now self.old.controls
            self.old.cells (W.contents out.old) self.new.cells (W.contents out.new)) }
        ensures idle { ticks ≡ 0 → (self.new.cells ≡ self.old.cells) × Keeps (W.contents out.old) (W.contents out.new) }
        ensures code { self.new.code.now ≡ self.old.code.now }
        ensures controls { self.new.controls ≡ self.old.controls }
    {
        if ticks == 0 {
            return Ok(());
        }
        let mut text = [0u8; 98304];
        let bytes = self.put_block(ticks, samples, &mut text);
        out.write_all(&text[..bytes])
    }

    // A control holds from the next tick on.
    fn set_control(&mut self, slot: u32, value: u32)
        ensures controls { self.new.controls ≡ set self.old.controls slot value }
        ensures cells { self.new.cells ≡ self.old.cells }
        ensures code { self.new.code.now ≡ self.old.code.now }
    {
        let at = index(slot);
        if at < CONTROLS {
            self.controls[at] = value;
        }
    }

    // Plays the ticks that stand first in the rest, and what ends them; gives what is then to be played.
    fn play_block<R: Read, W: Write>(
        &mut self,
        from: &mut R,
        out: &mut W,
        buffer: &mut [u8],
        rest: Rest,
    ) -> io::Result<Option<Rest>>
        requires { Stands rest buffer.old }
        ensures { IfOk result (λ next. IfSome next (λ r. Stands r buffer.new)) }
    {
        let at = rest.at;
        let end = rest.end;
        let mut samples = [0u32; 8192];
        let block = read_block(&buffer[at..end], index(self.code[INPUTS]), &mut samples);
        let line = rest.line.wrapping_add(block.ticks as u64);
        self.play_ticks(out, block.ticks, &samples)?;
        let next = Rest {
            at: at + block.bytes,
            line,
            ..rest
        };
        match block.stop {
            Stop::Full => Ok(Some(next)),
            Stop::Rest => read_on(from, out, buffer, next),
            Stop::Malformed => {
                print_malformed(out, line)?;
                Ok(None)
            }
            Stop::Control(slot, value) => {
                self.set_control(slot, value);
                Ok(Some(Rest {
                    line: line.wrapping_add(1),
                    ..next
                }))
            }
        }
    }

    // Plays block after block; nothing says that an input ends, so the blocks are counted.
    fn play<R: Read, W: Write>(
        &mut self,
        from: &mut R,
        out: &mut W,
        buffer: &mut [u8],
        first: Rest,
    ) -> io::Result<()>
        requires { Stands first buffer.old }
    {
        let mut rest = first;
        for _ in 0..u64::MAX {
            let Some(next) = self.play_block(from, out, buffer, rest)? else {
                break;
            };
            rest = next;
        }
        Ok(())
    }
}

// Plays an input of which the buffer holds so many bytes.
fn play_input<R: Read, W: Write>(
    from: &mut R,
    out: &mut W,
    buffer: &mut [u8],
    held: usize,
) -> io::Result<()>
    requires { held ≤ length buffer.old }
{
    let end = read_circuit(from, buffer, held)?;
    let circuit = circuit_bytes(&buffer[..end]);
    let mut code = [0u32; CODE_NUMBERS];
    let numbers = match translate_file(&buffer[..circuit], &mut code) {
        Ok(numbers) => numbers,
        Err(refusal) => return print_refusal(out, refusal),
    };
    if circuit == end {
        return Ok(());
    }
    // a circuit that is right has 41 bytes a line, and the empty line follows
    let first = Rest {
        at: circuit + 1,
        end,
        line: (circuit / 41 + 1) as u64,
        open: true,
    };
    Player::new(&code[..numbers]).play(from, out, buffer, first)
}

// Plays an input as it comes. A failed read or write ends it: what was written until then stays.
pub fn play<R: Read, W: Write>(from: &mut R, out: &mut W) -> io::Result<()> {
    let mut buffer = [0u8; 65536];
    play_input(from, out, &mut buffer, 0)
}

// Plays an input that is at hand, of at most 65,536 bytes; of a longer one nothing.
pub fn play_held<W: Write>(out: &mut W, input: &[u8]) -> io::Result<()> {
    let mut buffer = [0u8; 65536];
    if 65536 < input.len() {
        return Ok(());
    }
    buffer[..input.len()].copy_from_slice(input);
    play_input(&mut io::empty(), out, &mut buffer, input.len())
}
