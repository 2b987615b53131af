//! What a job read, to the extent that a hint needs it.

ghost use Rattle.std.specs.Prelude.{◌≡◌, ◌≤◌, length};

use crate::hint::keeps_of;
use memchr::memrchr;
use ocp_ports::Source;
use ocp_words::Job;
use std::alloc::{AllocError, Global};
use std::mem::swap;

/// How much of what was read is kept.
#[derive(Clone, Copy)]
pub(crate) enum Keeps {
    /// Nothing: the job has no hints.
    Nothing,
    /// All of it.
    Whole,
    /// The lines in the last read, from the front of the first of them on.
    LastLines,
}

/// What was read, to the extent that it is kept. Nothing is kept if memory for it is refused.
#[derive(Drop)]
pub(crate) struct Text {
    keeps: Keeps,
    octets: Vec<u8>,
    /// Room for what is kept next.
    spare: Vec<u8>,
    /// The number of lines before what is kept.
    before: u64,
    /// The number of lines that end in what is kept, and where the line after them begins; 0 if all
    /// is kept.
    ended: u64,
    open: usize,
    is_lost: bool,
}

/// The most octets whose newlines are counted at a time, so that the count fits into an octet.
const PIECE: usize = 255;

/// The number of newlines of a piece. No octet ends the loop, so that it takes many at a time.
fn newlines_in(piece: &[u8]) -> u8
    requires { length piece.now ≤ 255 }
{
    let mut count = 0;
    for octet in piece {
        count += u8::from(*octet == b'\n');
    }
    count
}

/// The number of newlines.
fn newlines(octets: &[u8]) -> u64 {
    let mut count = 0u64;
    for piece in octets.chunks(PIECE) {
        count = count.saturating_add(u64::from(newlines_in(piece)));
    }
    count
}

impl Text {
    pub fn new(alloc: Global, keeps: Keeps) -> Text {
        Text {
            keeps,
            octets: Vec::new(alloc),
            spare: Vec::new(alloc),
            before: 0,
            ended: 0,
            open: 0,
            is_lost: false,
        }
    }

    /// Keeps the line that has not ended, and no line before it.
    fn cut(&mut self) -> Result<(), AllocError> {
        self.spare.clear();
        self.spare
            .extend_from_slice(self.octets.get(self.open..).unwrap_or(&[]))?;
        swap(&mut self.octets, &mut self.spare);
        self.before = self.before.saturating_add(self.ended);
        self.ended = 0;
        self.open = 0;
        Ok(())
    }

    /// Appends these octets to the line that has not ended.
    fn go_on(&mut self, octets: &[u8]) -> Result<(), AllocError> {
        if self.ended != 0 {
            self.cut()?;
        }
        let ended = newlines(octets);
        if ended != 0 {
            let last = memrchr(b'\n', octets).unwrap_or(0);
            self.ended = ended;
            self.open = self.octets.len().saturating_add(last).saturating_add(1);
        }
        self.octets.extend_from_slice(octets)
    }

    /// Takes octets that were read.
    pub fn take(&mut self, octets: &[u8]) {
        if self.is_lost {
            return;
        }
        let taken = match self.keeps {
            Keeps::Nothing => Ok(()),
            Keeps::Whole => self.octets.extend_from_slice(octets),
            Keeps::LastLines => self.go_on(octets),
        };
        self.is_lost = taken.is_err();
    }

    /// What is kept.
    pub fn octets(&self) -> Option<&[u8]> {
        if self.is_lost {
            None
        } else {
            Some(self.octets.as_slice())
        }
    }

    /// The number of lines before what is kept.
    pub fn before(&self) -> u64 {
        self.before
    }
}

/// A source that keeps what it read, to the extent that the hints of its job need it.
#[derive(Drop)]
pub struct KeptSource<S: Source + Drop> {
    /// Where it reads from.
    pub inner: S,
    pub(crate) text: Text,
}

impl<S: Source + Drop> KeptSource<S> {
    /// The input of a job.
    pub fn for_job(alloc: Global, job: Job, inner: S) -> KeptSource<S>
        ensures { result.inner ≡ inner }
    {
        KeptSource {
            inner,
            text: Text::new(alloc, keeps_of(job)),
        }
    }
}

impl<S: Source + Drop> Source for KeptSource<S> {
    ghost remaining = { λ s. S.remaining s.inner };

    ghost failed_reads = { λ s. S.failed_reads s.inner };

    fn read(&mut self, buffer: &mut [u8]) -> Option<usize> {
        let count = self.inner.read(buffer)?;
        self.text.take(&buffer[..count]);
        Some(count)
    }
}
