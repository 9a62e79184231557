// Numerals without columns: how long they are, and one put into a text.
ghost use Rattle.std.specs.Prelude.{◌≡◌, ◌∷◌, ◌++◌, [], ◌+◌, ◌≤◌, length};
ghost use Rattle.word.specs.Word.{value};
ghost use Rattle.number.specs.Number.{decimal, numeral};
ghost use Rattle.number.specs.Put.{Put};

use crate::columns::put_number;

// How many digits n has.
fn decimal_bytes(n: u32) -> usize
    ensures { (result ≡ length (decimal n)) × (result ≤ 10) }
{
    let mut count: usize = 1;
    let mut rest: u32 = n;
    // a `for` is no plainer: the digits end where less than ten is left
    while rest > 9 {
        rest /= 10;
        count += 1;
    }
    count
}

// How many bytes the numeral of a word has.
fn numeral_bytes(word: u32) -> usize
    ensures { result ≡ length (numeral (value word)) }
{
    if word < 2147483648 {
        return decimal_bytes(word);
    }
    1 + decimal_bytes(word.wrapping_neg())
}

// The numeral of a word and a byte behind it, from `from` on; gives where the next begins.
pub fn put_numeral(word: u32, behind: u8, text: &mut [u8], from: usize) -> usize
    requires { from + (length (numeral (value word)) + 1) ≤ length text.old }
    ensures { Put (numeral (value word) ++ (behind ∷ [])) text.old from result text.new }
{
    let width = numeral_bytes(word);
    put_number(text, from, width, word);
    let end = from + width;
    text[end] = behind;
    end + 1
}
