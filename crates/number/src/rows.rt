// A line of numbers, each in a column of its own.
ghost use Rattle.std.specs.Prelude.{◌≡◌, map, length};
ghost use Rattle.word.specs.Word.{value};
ghost use Rattle.number.specs.Row.{row, row_bytes};

use crate::columns::put_number;

// The bytes of a column.
pub const COLUMN: usize = 12;

// The numbers and a line feed: the whole of the lent line.
pub fn put_row(numbers: &[u32], line: &mut [u8])
    requires { length line.old ≡ row_bytes (length numbers.now) }
    ensures { line.new ≡ row (map value numbers.now) }
{
    for (j, number) in numbers.iter().enumerate() {
        put_number(line, COLUMN * j, COLUMN, *number);
    }
    line[COLUMN * numbers.len()] = b'\n';
}
