//! Assembly text, line by line: the label and the instruction of one line.
#![tactic(auto)]

mod fields;
pub mod laws;
mod line;
mod number;
mod operands;
mod reading;
mod statements;
mod token;
mod tokens;

pub use line::{LineFault, Statement, TextLine};
pub use reading::read_line;
pub use token::{Scan, next_token};
