//! What all texts have in common. Lines: a newline ends a line, one carriage return directly
//! before it is no part of the line, and octets after the last newline are a line too. Octets:
//! pairs of hexadecimal digits.
#![tactic(auto)]

mod cut;
pub mod laws;
mod pairs;

pub use cut::{first_line, without_carriage_return};
pub use pairs::octets_of;
