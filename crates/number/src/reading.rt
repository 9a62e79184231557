// The number form: a column read.
ghost use Rattle.std.specs.Prelude.{◌≡◌, ◌≤◌, ◌^◌};
ghost use Rattle.number.specs.Number.{number_in};
ghost use Rattle.number.specs.Promises.{Unspaced, Digit, natural as natural_in, natural_found, found};

// Where the number begins, behind the spaces; none where there is nothing else.
fn begin(column: &[u8]) -> Option<usize>
    ensures { Unspaced column.now result }
{
    column.iter().position(|byte| *byte != b' ')
}

// The digit that a byte is.
fn digit(byte: u8) -> Option<u32>
    ensures { Digit byte result }
{
    match byte {
        b'0'..=b'9' => Some(u32::from(byte - b'0')),
        _ => None,
    }
}

// The natural number, at most `most`, whose decimal text this is: digits without a zero in front.
fn natural(text: &[u8], most: u32) -> Option<u32>
    requires { most ≤ 2 ^ 31 }
    ensures { result ≡ natural_found (natural_in most text.now) }
{
    let first = *text.first()?;
    if first == b'0' && text.len() > 1 {
        return None;
    }
    let tenth = most / 10;
    let mut n: u32 = 0;
    for byte in text {
        let d = digit(*byte)?;
        if n > tenth {
            return None;
        }
        n = 10 * n + d;
    }
    (n <= most).then_some(n)
}

// The word of the number that a column is the text of.
pub fn read_number(column: &[u8]) -> Option<u32>
    ensures { result ≡ found (number_in column.now) }
{
    let from = begin(column)?;
    if column[from] != b'-' {
        return natural(&column[from..], 2147483647);
    }
    let size = natural(&column[from + 1..], 2147483648)?;
    if size == 0 {
        return None;
    }
    Some(size.wrapping_neg())
}
