// A script as text: lines of a reader, their words, numbers and bytes; answers to standard output.
#![tactic(auto)]

mod input;
mod lent;
mod output;
mod scan;
mod words;

pub use input::{LINE, Line, Lines, WINDOW};
pub use lent::{flush, put, put_decimal, put_hex, put_item};
pub use output::Output;
pub use words::{read_bytes, read_number, read_numbers, word_end};
