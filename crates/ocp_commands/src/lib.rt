//! The commands of the ground tools: `asm` makes an image of assembly text, `list` a listing of an
//! image, and `check` states what no run of an image ever does.
#![tactic(auto)]

mod assembling;
mod checking;
pub mod laws;
mod listing;
mod output;
mod verdict;

pub use assembling::asm;
pub use checking::check;
pub use listing::list;
