// The part of an input that a buffer holds: read on as it is played. A read that fails is the caller's to answer: it has
// taken nothing from the input, and the bytes that the buffer holds are as they were.
ghost use Rattle.std.specs.Prelude.{◌≡◌, ℕ, ◌-◌, ◌<◌, ◌≤◌, length, take, drop, IfSome, IfOk, OnErr};
ghost use Rattle.std.specs.Io.KnownBytes.{Consumes, IsAtEnd, Keeps};
ghost use Rattle.console.specs.Held.{Stands, Grown, Moved};

use crate::messages::print_malformed;
use std::io;
use std::io::{Read, Write};

// What is to be played: the bytes of the buffer from `at` to `end`, whose first line has this number in the input, modulo
// 2^64. The input may give more as long as it is open.
#[derive(Clone, Copy)]
pub struct Rest {
    pub at: usize,
    pub end: usize,
    pub line: u64,
    pub open: bool,
}

// One read into the free part of the buffer; gives where the bytes that it holds end.
pub fn read_more<R: Read>(from: &mut R, buffer: &mut [u8], end: usize) -> io::Result<usize>
    requires { end ≤ length buffer.old }
    ensures grown { IfOk result (Grown end buffer.new) }
    ensures held { take end buffer.new ≡ take end buffer.old }
    ensures taken { IfOk result (λ n. Consumes (R.remaining from.old) (R.remaining from.new)
        (take (n - end) (drop end buffer.new))) }
    ensures last { IfOk result (λ n. n ≡ end → end < length buffer.new → IsAtEnd (R.remaining from.new)) }
    ensures failed { OnErr result (Keeps (R.remaining from.old) (R.remaining from.new)) }
{
    let got = from.read(&mut buffer[end..])?;
    Ok(end + got)
}

// Reads until the buffer is full or the input ends; gives how many bytes stand in front.
pub fn read_full<R: Read>(from: &mut R, buffer: &mut [u8]) -> io::Result<usize>
    ensures within { IfOk result (λ n. n ≤ length buffer.new) }
    ensures taken { IfOk result (λ n. Consumes (R.remaining from.old) (R.remaining from.new) (take n buffer.new)) }
    ensures last { IfOk result (λ n. n < length buffer.new → IsAtEnd (R.remaining from.new)) }
    ensures failed { OnErr result ((n : ℕ) × (n ≤ length buffer.new)
        × Consumes (R.remaining from.old) (R.remaining from.new) (take n buffer.new)) }
{
    let mut end: usize = 0;
    // no `for`: each read says how many bytes it gave
    while end < buffer.len() {
        let next = read_more(from, buffer, end)?;
        if next == end {
            break;
        }
        end = next;
    }
    Ok(end)
}

// The bytes from `at` to `end` go to the front; gives how many.
fn move_front(buffer: &mut [u8], at: usize, end: usize) -> usize
    requires { (at ≤ end) × (end ≤ length buffer.old) }
    ensures { Moved buffer.old at end result buffer.new }
{
    if at == 0 {
        return end;
    }
    let count = end - at;
    // no `copy_within`: byte by byte, so that a check against wrong programs can name each byte
    for i in 0..count {
        buffer[i] = buffer[at + i];
    }
    count
}

// The input has ended: its last line, if it has no line feed, gets one.
fn end_line(buffer: &mut [u8], held: usize, line: u64) -> Option<Rest>
    requires { held < length buffer.old }
    ensures { IfSome result (λ r. Stands r buffer.new) }
{
    if held == 0 {
        return None;
    }
    buffer[held] = b'\n';
    Some(Rest {
        at: 0,
        end: held + 1,
        line,
        open: false,
    })
}

// No whole line is left: what there is of one goes to the front, and the input is read on, unless it is over. A line that
// fills the buffer without its line feed is malformed.
pub fn read_on<R: Read, W: Write>(
    from: &mut R,
    out: &mut W,
    buffer: &mut [u8],
    rest: Rest,
) -> io::Result<Option<Rest>>
    requires { Stands rest buffer.old }
    ensures { IfOk result (λ next. IfSome next (λ r. Stands r buffer.new)) }
{
    let line = rest.line;
    let held = move_front(buffer, rest.at, rest.end);
    if held == buffer.len() {
        print_malformed(out, line)?;
        return Ok(None);
    }
    if !rest.open {
        return Ok(end_line(buffer, held, line));
    }
    let end = read_more(from, buffer, held)?;
    if end == held {
        return Ok(end_line(buffer, held, line));
    }
    Ok(Some(Rest {
        at: 0,
        end,
        line,
        open: true,
    }))
}
