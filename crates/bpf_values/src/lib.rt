//! What instructions compute: arithmetic, byte order and the tests of jumps.
#![tactic(auto)]

mod arithmetic;
mod jump;
pub mod laws;
mod sizes;

pub use arithmetic::{arithmetic_result, byte_order_result, negation, sign_extension};
pub use jump::is_taken;
pub use sizes::{extension_of, size_of};
