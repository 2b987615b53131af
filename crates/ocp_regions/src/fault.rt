//! Why an access is refused.

use thiserror::Error;

/// Why an access is refused. Nothing was read or written.
#[derive(Clone, Copy, PartialEq, Eq, Debug, Error)]
pub enum AccessFault {
    #[error("an octet of the access lies outside of all regions")]
    AccessOutside,
    /// All octets are there, and one of a store lies in the argument region.
    #[error("the store writes to the arguments")]
    WriteToArguments,
}
