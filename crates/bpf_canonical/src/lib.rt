//! The canonical text of an instruction: its mnemonic and its operands.
#![tactic(auto)]

pub mod laws;
mod mnemonic;
mod text;
mod writing;

pub use mnemonic::{Mnemonic, Stem, mnemonic_of, read_mnemonic};
pub use text::{MAX_TEXT_LENGTH, Text};
pub use writing::{line_text, text_of};
