//! Listings: the text of an image, and an instruction from its text.
#![tactic(auto)]

mod disassembly;
pub mod laws;
mod reading;

pub use bpf_canonical::line_text;
pub use disassembly::{DisassembleFault, disassemble};
pub use reading::read_line;
