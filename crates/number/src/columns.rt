// A column written: the digits from the last to the first, a minus, then the spaces, straight into the lent line.
ghost use Rattle.std.specs.Prelude.{◌≡◌, ◌+◌, ◌-◌, ◌≤◌, length, replicate};
ghost use Rattle.std.proofs.lemmas.List.Edits.{sets};
ghost use Rattle.word.specs.Word.{value};
ghost use Rattle.number.specs.Number.{space as space_byte, decimal, numeral};
ghost use Rattle.number.specs.Laws.{ColumnWritten};

// The digits of n, the last just before `end`; gives where they begin.
fn put_digits(line: &mut [u8], end: usize, n: u32) -> usize
    requires { (length (decimal n) ≤ end) × (end ≤ length line.old) }
    ensures { (result ≡ end - length (decimal n)) × (line.new ≡ sets line.old (end - length (decimal n)) (decimal n)) }
{
    let mut at: usize = end;
    let mut rest: u32 = n;
    // a `for` is no plainer: how many digits there are shows only once all are put
    while rest > 9 {
        at -= 1;
        line[at] = b'0' + (rest % 10) as u8;
        rest /= 10;
    }
    at -= 1;
    line[at] = b'0' + rest as u8;
    at
}

// Spaces before `end`, down to `from`.
fn put_spaces(line: &mut [u8], from: usize, end: usize)
    requires { (from ≤ end) × (end ≤ length line.old) }
    ensures { line.new ≡ sets line.old from (replicate (end - from) space_byte) }
{
    line[from..end].fill(b' ');
}

// A word's number in the column of this width that begins at `from`.
pub fn put_number(line: &mut [u8], from: usize, width: usize, word: u32)
    requires { (length (numeral (value word)) ≤ width) × (from + width ≤ length line.old) }
    ensures { ColumnWritten line.old from width (value word) line.new }
{
    let end = from + width;
    if word < 2147483648 {
        let at = put_digits(line, end, word);
        put_spaces(line, from, at);
        return;
    }
    let first = put_digits(line, end, word.wrapping_neg());
    let at = first - 1;
    line[at] = b'-';
    put_spaces(line, from, at);
}
