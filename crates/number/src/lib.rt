// Decimal numbers as text: a column read, a column written into a lent line, a line of columns, a numeral without a column.
#![tactic(auto)]

mod columns;
mod numerals;
mod reading;
mod rows;

pub use columns::put_number;
pub use numerals::put_numeral;
pub use reading::read_number;
pub use rows::{COLUMN, put_row};
