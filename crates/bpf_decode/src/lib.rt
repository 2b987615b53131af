//! Between octets and typed instructions: the instruction table of RFC 9669, both ways.
#![tactic(auto)]

mod codes;
mod encoded;
mod encoding;
mod fault;
pub mod laws;
mod rows;
mod slots;

pub use encoded::EncodedLine;
pub use encoding::{Slots, encode};
pub use fault::DecodeFault;
pub use slots::decode_at;
