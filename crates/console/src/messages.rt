// What is printed instead of samples.
ghost use Rattle.std.specs.Prelude.{OnOk};
ghost use Rattle.std.specs.Io.KnownBytes.{Appends};
ghost use Rattle.refusal.specs.Refusals.{number_of, place_of};
ghost use Rattle.listing.specs.Print.{refusal_text};
ghost use Rattle.console.specs.Messages.{malformed_text};

use refusal::Refusal;
use std::io;
use std::io::Write;

// Number and place of a refusal on one line.
pub fn print_refusal<W: Write>(out: &mut W, refusal: Refusal) -> io::Result<()>
    ensures { OnOk result (Appends (W.contents out.old) (W.contents out.new)
        (refusal_text (number_of refusal) (place_of refusal))) }
{
    let mut text = [0u8; 25];
    let bytes = listing::put_refusal(refusal, &mut text);
    out.write_all(&text[..bytes])
}

// The line of the input that is malformed, counted from 0.
pub fn print_malformed<W: Write>(out: &mut W, line: u64) -> io::Result<()>
    ensures { OnOk result (Appends (W.contents out.old) (W.contents out.new) (malformed_text line)) }
{
    writeln!(out, "line {line} is malformed")
}
