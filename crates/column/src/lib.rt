// Column files: a node table as lines of right-justified decimal numbers, read and written.
#![tactic(auto)]

mod reader;
mod writer;

use number::COLUMN;
pub use reader::read;
use word::limits::NODES;
pub use writer::write;

// The column of the node number, three of COLUMN bytes and a line feed.
const NODE_COLUMN: usize = 4;

const LINE_BYTES: usize = NODE_COLUMN + 3 * COLUMN + 1;

// The bytes of a file that are enough: the lines of the largest, and a byte of one too many.
pub const ENOUGH_BYTES: usize = LINE_BYTES * NODES + 1;
