// What a script prints.
use cells::Samples;
use refusal::Refusal;
use std::io;
use std::io::Write;

// A word as the signed number that it stands for, a space before it.
pub fn number<W: Write>(out: &mut W, word: u32) -> io::Result<()> {
    write!(out, " {}", word.cast_signed())
}

// Number and place.
fn refused<W: Write>(out: &mut W, refusal: Refusal) -> io::Result<()> {
    write!(out, " refused")?;
    number(out, refusal.number())?;
    number(out, refusal.place())
}

// The count that a call answers, or its refusal; gives the count.
pub fn count<W: Write>(out: &mut W, answer: Result<u32, Refusal>) -> io::Result<Option<u32>> {
    match answer {
        Ok(count) => {
            number(out, count)?;
            Ok(Some(count))
        }
        Err(refusal) => {
            refused(out, refusal)?;
            Ok(None)
        }
    }
}

// Numbers that a call answers, or its refusal.
pub fn numbers<W: Write, const N: usize>(
    out: &mut W,
    answer: Result<[u32; N], Refusal>,
) -> io::Result<()> {
    match answer {
        Ok(numbers) => {
            for word in numbers {
                number(out, word)?;
            }
            Ok(())
        }
        Err(refusal) => refused(out, refusal),
    }
}

// The report of a walk or a run.
pub fn report<W: Write>(out: &mut W, answer: Result<Samples, Refusal>) -> io::Result<()> {
    numbers(out, answer.map(|samples| [samples.count, samples.clipped]))
}

// All numbers, equal ones in a row as one with their count.
pub fn list<W: Write>(out: &mut W, list: &[u32]) -> io::Result<()> {
    for equal in list.chunk_by(|a, b| a == b) {
        if let Some(&value) = equal.first() {
            number(out, value)?;
        }
        if 1 < equal.len() {
            write!(out, "*{}", equal.len())?;
        }
    }
    writeln!(out)
}

// The buffer that a call was lent.
pub fn buffer<W: Write>(out: &mut W, buffer: &[u32]) -> io::Result<()> {
    write!(out, " |")?;
    list(out, buffer)
}

// The first numbers of a list; nothing where there are not so many.
pub fn first<W: Write>(out: &mut W, numbers: &[u32], count: u32) -> io::Result<()> {
    match numbers.get(..word::index(count)) {
        Some(first) => list(out, first),
        None => Ok(()),
    }
}
