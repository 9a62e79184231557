// The reader: every line is checked before any number is stored.
ghost use Rattle.std.specs.Prelude.{◌≡◌, ◌*◌, ◌+◌, ◌≤◌, ◌<◌, ◌++◌, length, drop};
ghost use Rattle.std.proofs.Math.Option.{none};
ghost use Rattle.std.proofs.lemmas.List.Edits.{sets};
ghost use Rattle.number.specs.Number.{number_in, word_of};
ghost use Rattle.column.specs.Line.{line_bytes, column_of, whole, lines, entries};
ghost use Rattle.column.specs.File.{file_refusal, table_of, reading};
ghost use Rattle.column.specs.Promises.{FirstFeed, LinesChecked, first_line};
ghost use Rattle.number.specs.Promises.{found};
ghost use Rattle.refusal.specs.Answer.{answer_of};
ghost use Rattle.refusal.specs.Outcome.{outcome};

use crate::{LINE_BYTES, NODE_COLUMN};
use number::{COLUMN, read_number};
use refusal::Refusal;
use word::index;
use word::limits::MOST_NODES;

// Where the first line feed stands.
fn feed(bytes: &[u8]) -> Option<usize>
    ensures { FirstFeed bytes.now result }
{
    bytes.iter().position(|byte| *byte == b'\n')
}

// Whether the line that begins these bytes has 41, the last its line feed. However long the line is, only these are looked at.
fn is_whole(bytes: &[u8]) -> bool
    ensures { result ≡ whole (first_line bytes.now) }
{
    feed(bytes) == Some(LINE_BYTES - 1)
}

// Column j of a line.
fn column_at(line: &[u8], j: usize) -> Option<u32>
    requires { (line_bytes ≤ length line.now) × (j < 4) }
    ensures { result ≡ found (number_in (column_of j line.now)) }
{
    if j == 0 {
        return read_number(&line[..NODE_COLUMN]);
    }
    let from = NODE_COLUMN + COLUMN * (j - 1);
    let end = from + COLUMN;
    read_number(&line[from..end])
}

// Checks line after line, and in a line its length and then column after column, up to the first that is wrong; gives how
// many lines there are.
fn check_lines(file: &[u8]) -> Result<u32, Refusal>
    ensures { LinesChecked file.now result }
{
    if file.is_empty() {
        return Err(Refusal::WrongNodeCount(0));
    }
    let mut line: u32 = 0;
    'lines: {
        for bytes in file.chunks(LINE_BYTES) {
            if line == MOST_NODES {
                break 'lines Err(Refusal::WrongNodeCount(MOST_NODES));
            }
            if !is_whole(bytes) {
                break 'lines Err(Refusal::MalformedLine(line));
            }
            for column in 0..4 {
                let Some(word) = column_at(bytes, column) else {
                    break 'lines Err(Refusal::MalformedLine(line));
                };
                if column == 0 && word != line {
                    break 'lines Err(Refusal::WrongNodeNumber(line));
                }
            }
            line += 1;
        }
        Ok(line)
    }
}

// The word of a column's number.
fn word_at(line: &[u8], j: usize) -> u32
    requires { (line_bytes ≤ length line.now) × (j < 4) }
    ensures { result ≡ word_of (number_in (column_of j line.now)) }
{
    column_at(line, j).unwrap_or(0)
}

// The three numbers of a line become node `node` of the table.
fn store_node(line: &[u8], table: &mut [u32], node: usize)
    requires { (line_bytes ≤ length line.now) × (3 * node + 3 ≤ length table.old) }
    ensures { table.new ≡ sets table.old (3 * node) (entries line.now) }
{
    table[3 * node] = word_at(line, 1);
    table[3 * node + 1] = word_at(line, 2);
    table[3 * node + 2] = word_at(line, 3);
}

// The numbers of a file that is right become the first of the table.
fn store(file: &[u8], table: &mut [u32], nodes: usize)
    requires file_value { file_refusal file.now ≡ none }
    requires nodes_value { (nodes ≡ length (lines file.now)) × (3 * nodes ≤ length table.old) }
    ensures { table.new ≡ table_of (lines file.now) ++ drop (3 * nodes) table.old }
{
    for node in 0..nodes {
        store_node(&file[LINE_BYTES * node..], table, node);
    }
}

// Reads a column file into the table: 3, 1 and 2 line by line, then 12. Gives the count of nodes.
pub fn read(file: &[u8], table: &mut [u32]) -> Result<u32, Refusal>
    ensures { outcome (answer_of result) table.new ≡ reading file.now table.old }
{
    let count = check_lines(file)?;
    let nodes = index(count);
    if table.len() < 3 * nodes {
        return Err(Refusal::ShortBuffer);
    }
    store(file, table, nodes);
    Ok(count)
}
