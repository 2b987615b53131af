//! Readers and writers of std, with a count of the calls that failed.

ghost use Rattle.std.specs.Prelude.{◌<◌, ◌-◌};

use crate::ports::{Sink, Source};
use std::io::{Read, Write};

/// A reader or a writer of std as a `Source` or a `Sink`.
#[derive(Drop)]
pub struct Device<D: Drop> {
    /// The reader or the writer.
    pub inner: D,
    /// How many calls failed so far; a write that takes no octet is one.
    pub failed: u64,
}

impl<R: Read + Drop> Source for Device<R> {
    ghost remaining = { λ s. R.remaining s.inner };

    ghost failed_reads = { λ s. s.failed };

    fn read(&mut self, buffer: &mut [u8]) -> Option<usize> {
        match self.inner.read(buffer) {
            Ok(count) => Some(count),
            Err(_) => {
                self.failed += 1;
                None
            }
        }
    }
}

impl<W: Write + Drop> Sink for Device<W> {
    ghost contents = { λ s. W.contents s.inner };

    ghost failed_writes = { λ s. s.failed };

    fn write(&mut self, octets: &[u8]) -> Option<usize> {
        match self.inner.write(octets) {
            Ok(0) | Err(_) => {
                self.failed += 1;
                None
            }
            Ok(count) => Some(count),
        }
    }
}
