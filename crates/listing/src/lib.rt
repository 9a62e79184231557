// The translator's print: the code of a column file as text, or number and place of the refusal.
#![tactic(auto)]

ghost use Rattle.std.specs.Prelude.{◌+◌, ◌≤◌, length};
ghost use Rattle.refusal.specs.Refusals.{number_of, place_of};
ghost use Rattle.listing.specs.Print.{line, rows, code_text, refusal_text, most_bytes, table_text, file_text};
ghost use Rattle.number.specs.Put.{Put, Begins};
ghost use Rattle.number.specs.Row.{row_bytes};
ghost use Rattle.listing.specs.Steps.{Rows, Listable};

use flat::format::{CODE_NUMBERS, HEADER, INSTRUCTIONS, OUTPUTS, WIDTH};
use number::{COLUMN, put_row};
use refusal::Refusal;
use word::index;
use word::limits::{BEAM, MOST_INSTRUCTIONS, TABLE_NUMBERS};

// The bytes of a line of so many numbers, and of the print of the largest code.
const HEADER_BYTES: usize = COLUMN * HEADER + 1;

const INSTRUCTION_BYTES: usize = COLUMN * WIDTH + 1;

const OUTPUT_BYTES: usize = COLUMN + 1;

pub const PRINT_BYTES: usize = HEADER_BYTES
    + INSTRUCTION_BYTES * MOST_INSTRUCTIONS as usize
    + OUTPUT_BYTES * BEAM;

// A line of numbers from `from` on, in the part of the text that is lent for it; gives where the next line begins.
fn put_line(numbers: &[u32], text: &mut [u8], from: usize) -> usize
    requires { from + row_bytes (length numbers.now) ≤ length text.old }
    ensures { Put (line numbers.now) text.old from result text.new }
{
    let end = from + COLUMN * numbers.len() + 1;
    put_row(numbers, &mut text[from..end]);
    end
}

// As many lines as `count`, of `width` numbers each.
fn put_lines(numbers: &[u32], width: usize, count: usize, text: &mut [u8], from: usize) -> usize
    requires { Rows numbers.now width count text.old from }
    ensures { Put (rows width count numbers.now) text.old from result text.new }
{
    let mut at: usize = from;
    for line in 0..count {
        let first = width * line;
        let end = first + width;
        at = put_line(&numbers[first..end], text, at);
    }
    at
}

// The header on a line, each instruction on a line, each output on a line.
fn put_code(code: &[u32], text: &mut [u8]) -> usize
    requires { Listable code.now text.old }
    ensures { Put (code_text code.now) text.old 0 result text.new }
{
    let instructions = index(code[INSTRUCTIONS]);
    let outputs = HEADER + WIDTH * instructions;
    let header = put_line(&code[0..HEADER], text, 0);
    let body = put_lines(&code[HEADER..], WIDTH, instructions, text, header);
    put_lines(&code[outputs..], 1, index(code[OUTPUTS]), text, body)
}

// Number and place on one line.
pub fn put_refusal(refusal: Refusal, text: &mut [u8]) -> usize
    requires { row_bytes 2 ≤ length text.old }
    ensures { Put (refusal_text (number_of refusal) (place_of refusal)) text.old 0 result text.new }
{
    let numbers = [refusal.number(), refusal.place()];
    put_line(&numbers, text, 0)
}

// The print of a table.
fn print_table(table: &[u32], text: &mut [u8]) -> usize
    requires { most_bytes ≤ length text.old }
    ensures { Begins (table_text table.now) text.old result text.new }
{
    let mut code = [0u32; CODE_NUMBERS];
    let answer = translator::translate(table, &mut code);
    match answer {
        Err(refusal) => put_refusal(refusal, text),
        Ok(numbers) => {
            let count = index(numbers);
            put_code(&code[..count], text)
        }
    }
}

// The print of a column file; gives how many bytes it has.
pub fn print(file: &[u8], text: &mut [u8; PRINT_BYTES]) -> usize
    ensures { Begins (file_text file.now) text.old result text.new }
{
    let mut table = [0u32; TABLE_NUMBERS];
    let answer = column::read(file, &mut table);
    match answer {
        Err(refusal) => put_refusal(refusal, text),
        Ok(nodes) => {
            let count = 3 * index(nodes);
            print_table(&table[..count], text)
        }
    }
}
