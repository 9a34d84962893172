// Lines of text with fields parted by tabs, as docs/PROBE.md has them: finding a field, and reading a number or bytes
// from it. Nothing here reads or writes a file.
#![tactic(auto)]

mod fields;
mod hexadecimal;
mod numbers;

pub use fields::{arguments, field, find, same};
pub use hexadecimal::{first_digit, read_bytes, second_digit};
pub use numbers::read_number;
