// The writer: a table of 1 to 512 nodes as a column file.
ghost use Rattle.std.specs.Prelude.{◌≡◌, ◌+◌, ◌*◌, ◌≤◌, ◌<◌, ◌++◌, length, drop};
ghost use Rattle.word.specs.Limits.{most_nodes};
ghost use Rattle.column.specs.Line.{line_bytes};
ghost use Rattle.column.specs.File.{line_of, lines_from, writing};
ghost use Rattle.refusal.specs.Answer.{answer_of};
ghost use Rattle.refusal.specs.Outcome.{outcome};

use crate::{LINE_BYTES, NODE_COLUMN};
use number::{put_number, put_row};
use refusal::Refusal;
use word::limits::{MOST_NODES, NODES};

// The line of a node, the whole of the lent line: its number in 4 columns, then its three in 12 each.
fn put_line(table: &[u32], node: usize, line: &mut [u8])
    requires { (3 * node + 3 ≤ length table.now) × ((node < most_nodes) × (length line.old ≡ line_bytes)) }
    ensures { line.new ≡ line_of table.now node }
{
    put_number(line, 0, NODE_COLUMN, node as u32);
    let first = 3 * node;
    let end = first + 3;
    put_row(&table[first..end], &mut line[NODE_COLUMN..LINE_BYTES]);
}

// The lines of all nodes, each lent the part of the file that is its line.
fn put_lines(table: &[u32], nodes: usize, file: &mut [u8])
    requires { (3 * nodes ≤ length table.now) × ((nodes ≤ most_nodes) × (line_bytes * nodes ≤ length file.old)) }
    ensures { file.new ≡ lines_from table.now 0 nodes ++ drop (line_bytes * nodes) file.old }
{
    for node in 0..nodes {
        let begin = LINE_BYTES * node;
        let end = begin + LINE_BYTES;
        put_line(table, node, &mut file[begin..end]);
    }
}

// Writes a table as a column file: 3, then 12. Gives the count of bytes.
pub fn write(table: &[u32], file: &mut [u8]) -> Result<u32, Refusal>
    ensures { outcome (answer_of result) file.new ≡ writing table.now file.old }
{
    let numbers = table.len();
    if numbers == 0 || numbers % 3 != 0 {
        return Err(Refusal::WrongNodeCount(0));
    }
    let nodes = numbers / 3;
    if nodes > NODES {
        return Err(Refusal::WrongNodeCount(MOST_NODES));
    }
    let needed = LINE_BYTES * nodes;
    if file.len() < needed {
        return Err(Refusal::ShortBuffer);
    }
    put_lines(table, nodes, file);
    Ok(needed as u32)
}
