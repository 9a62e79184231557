ghost use Rattle.std.specs.Prelude.{IfSome, OnOk};
ghost use Rattle.std.specs.Io.KnownBytes.{Appends};
ghost use Rattle.listing.specs.Print.{file_text};

use crate::held::read_full;
use column::ENOUGH_BYTES;
use listing::PRINT_BYTES;
use std::io;
use std::io::{Read, Write};

// Reads a column file and prints its code, or number and place of the refusal. The only error is that of a read or a write
// that failed; of what was written by then nothing is known.
pub fn translate<R: Read, W: Write>(from: &mut R, out: &mut W) -> io::Result<()>
    ensures { OnOk result (IfSome (R.remaining from.old) (λ file.
        Appends (W.contents out.old) (W.contents out.new) (file_text file))) }
{
    // 512 lines, and a byte by which a 513th is known; what follows changes nothing (`PrefixPrints`)
    let mut file = [0u8; ENOUGH_BYTES];
    let count = read_full(from, &mut file)?;
    let mut text = [0u8; PRINT_BYTES];
    let bytes = listing::print(&file[..count], &mut text);
    out.write_all(&text[..bytes])
}
