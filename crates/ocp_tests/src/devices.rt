//! Readers and writers that give or take little at a call, and fail.
use std::alloc::Global;
use std::io;
use std::io::{ErrorKind, Read, Write};

/// Gives octets of its own a few at a call, and fails at one call.
#[derive(Drop)]
pub(crate) struct Giver {
    left: &'static [u8],
    /// How many octets it gives at a call at most.
    piece: usize,
    /// How many calls do not fail.
    good: u64,
}

impl Giver {
    pub fn new(octets: &'static [u8], piece: usize, good: u64) -> Giver {
        Giver {
            left: octets,
            piece,
            good,
        }
    }
}

impl Read for Giver {
    fn read(&mut self, buffer: &mut [u8]) -> io::Result<usize> {
        if self.good == 0 {
            return Err(ErrorKind::Other.into());
        }
        self.good -= 1;
        let count = self.left.len().min(self.piece).min(buffer.len());
        buffer[..count].copy_from_slice(&self.left[..count]);
        self.left = &self.left[count..];
        Ok(count)
    }
}

/// Keeps what it takes, a few octets at a call, until it is full. Then it fails, or takes none.
#[derive(Drop)]
pub(crate) struct Taker {
    kept: Vec<u8>,
    /// How many octets it takes at a call at most.
    piece: usize,
    /// How many octets it takes in all.
    room: usize,
    /// Whether a full one fails.
    fails: bool,
}

impl Taker {
    pub fn new(alloc: Global, piece: usize, room: usize, fails: bool) -> Taker {
        Taker {
            kept: Vec::new(alloc),
            piece,
            room,
            fails,
        }
    }

    pub fn kept(&self) -> &[u8] {
        self.kept.as_slice()
    }
}

impl Write for Taker {
    fn write(&mut self, octets: &[u8]) -> io::Result<usize> {
        let room = self.room.saturating_sub(self.kept.len());
        if room == 0 && self.fails {
            return Err(ErrorKind::Other.into());
        }
        let count = octets.len().min(self.piece).min(room);
        self.kept.extend_from_slice(&octets[..count])?;
        Ok(count)
    }

    fn flush(&mut self) -> io::Result<()> {
        Ok(())
    }
}
