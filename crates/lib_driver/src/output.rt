//! The vector of a writer.

use driver_lines::*;
use std::fmt::{Debug, Display};

/// A vector that a writer appends to, and the capacity that it had before.
#[derive(Drop)]
pub struct Output {
    pub octets: Vec<u8>,
    capacity: usize,
}

impl Output {
    /// One with the octets that a word says, and no room for more.
    pub fn before(alloc: Global, word: &str) -> Result<Output, Fault> {
        let text = octets(alloc, word)?;
        let mut octets = Vec::with_capacity(alloc, text.len())?;
        octets.extend_from_slice(&text)?;
        let capacity = octets.capacity();
        Ok(Output { octets, capacity })
    }

    /// `Ok`, or the fault, and the octets that are there then, in the form that is given. After a
    /// fault also `Capacity`, if that is another than before.
    pub fn show<E: Debug + Drop, D: Display + Drop>(
        &self,
        alloc: Global,
        done: Result<(), E>,
        shown: D,
    ) -> Answer {
        match done {
            Ok(()) => text!(alloc; "Ok", shown),
            Err(fault) if self.octets.capacity() == self.capacity => {
                text!(alloc; Named(fault), shown)
            }
            Err(fault) => text!(alloc; Named(fault), shown, "Capacity"),
        }
    }
}
