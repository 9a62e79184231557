// Lines of a script, and the numbers of a line.
ghost use Rattle.std.specs.Prelude.{◌≡◌, ◌≤◌, ◌<◌, length, IfSome};

use word::negate;

// The first line, and the text behind its line feed.
pub fn split_line(text: &[u8]) -> Option<(&[u8], &[u8])>
    ensures { IfSome result (λ parts. length parts.1.now < length text.now) }
{
    let end = text.iter().position(|&byte| byte == b'\n')?;
    Some((&text[..end], &text[end + 1..]))
}

// The word at the front of a line, and what follows it.
pub fn split_word(line: &[u8]) -> (&[u8], &[u8]) {
    let end = line
        .iter()
        .position(|&byte| byte <= b' ')
        .unwrap_or(line.len());
    (&line[..end], &line[end..])
}

// A value with one digit more, 0 where that is no word: a script has no such number.
fn longer(value: u32, digit: u8) -> u32 {
    value
        .checked_mul(10)
        .and_then(|tens| tens.checked_add(u32::from(digit.wrapping_sub(b'0'))))
        .unwrap_or(0)
}

// The digits at the front of a text, and what follows them.
fn split_digits(text: &[u8]) -> (u32, &[u8])
    ensures { length result.1.now ≤ length text.now }
{
    let end = text
        .iter()
        .position(|byte| !byte.is_ascii_digit())
        .unwrap_or(text.len());
    let (digits, rest) = text.split_at(end);
    let value = digits.iter().fold(0, |value, digit| longer(value, *digit));
    (value, rest)
}

// The word of the number at the front, which may have a minus.
fn split_number(text: &[u8]) -> (u32, &[u8])
    ensures { length result.1.now ≤ length text.now }
{
    match text.split_first() {
        Some((b'-', digits)) => {
            let (size, rest) = split_digits(digits);
            (negate(size), rest)
        }
        _ => split_digits(text),
    }
}

// How many times a number stands there: the count behind a star, else 1.
fn split_times(text: &[u8]) -> (u32, &[u8])
    ensures { length result.1.now ≤ length text.now }
{
    match text.split_first() {
        Some((b'*', digits)) => split_digits(digits),
        _ => (1, text),
    }
}

// The value as many times as `times` from `from` on, as far as there is room; gives where they end.
pub fn put_run(list: &mut [u32], from: usize, value: u32, times: u32) -> usize
    requires { from ≤ length list.old }
    ensures within { result ≤ length list.new }
    ensures len { length list.new ≡ length list.old }
{
    let end = list.len().min(from + times as usize);
    list[from..end].fill(value);
    end
}

// The numbers of a line, one byte before each, as far as there is room; gives how many.
pub fn read_list(arguments: &[u8], list: &mut [u32]) -> usize
    ensures within { result ≤ length list.new }
    ensures len { length list.new ≡ length list.old }
{
    let mut rest = arguments;
    let mut count: usize = 0;
    while let Some((_, numbers)) = rest.split_first() {
        let (value, behind) = split_number(numbers);
        let (times, behind) = split_times(behind);
        count = put_run(list, count, value, times);
        rest = behind;
    }
    count
}

// The first so many numbers of a line, 0 for those that are not there.
pub fn read_numbers<const N: usize>(arguments: &[u8]) -> [u32; N] {
    let mut numbers = [0u32; N];
    read_list(arguments, &mut numbers);
    numbers
}
