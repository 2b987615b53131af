//! The lines of a script, in the order in which they are read.

ghost use Rattle.std.specs.Prelude.{◌≡◌, ◌≢◌, ◌<◌, ◌≤◌, ◌+◌, ◌-◌, ◌^◌, ◌++◌, ◌∷◌, [], true, false, IfOk, IfErr, length, vec_len};
ghost use Rattle.std.specs.Io.KnownBytes.{IsAtEnd};
ghost use Rattle.ocp_ports.specs.declared.fault.TheConstants.{MAX_LINES, MAX_LINE_OCTETS};

use crate::words::length_before;
use ocp_ports::{CHUNK, ConsoleFault, MAX_LINE_OCTETS, MAX_LINES, Source};
use std::alloc::Allocator;
use text_lines::without_carriage_return;

/// A reader of the lines of a source. It keeps what a read gave beyond the last line.
#[derive(Drop)]
pub struct Lines<A: Allocator> {
    chunk: [u8; CHUNK],
    /// Where the octets of the chunk begin that no line has yet, and where they end.
    start: usize,
    end: usize,
    /// The last line, if its newline was not held when it was asked for.
    line: Vec<u8, A>,
    /// Where the last line is in the chunk, if its newline was held.
    first: usize,
    last: usize,
    /// The number of the last line.
    number: u32,
    /// Whether the source has no more octets.
    is_over: bool,
    ghost room: { length chunk ≡ 4096 },
    ghost order: { start ≤ end },
    ghost bound: { end ≤ 4096 },
    ghost order_of_line: { first ≤ last },
    ghost bound_of_line: { last ≤ 4096 },
    ghost apart: { line.items ≢ [] → first ≡ last },
    ghost few: { number ≤ MAX_LINES },
    ghost none_left: { is_over ≡ true → start ≡ end },
}

impl<A: Allocator> Lines<A> {
    ghost use Rattle.ocp_lines.specs.Lines.{is_one_line, octets_left, text_in, lines_read, is_at_end, HasFault, Finds, ReadsWithin, Counts};

    /// A reader that has read nothing yet.
    pub fn new(alloc: A) -> Lines<A>
        ensures held { octets_left result ≡ [] }
        ensures number { lines_read result ≡ 0 }
        ensures is_over { is_at_end result ≡ false }
    {
        Lines {
            chunk: [0; CHUNK],
            start: 0,
            end: 0,
            line: Vec::new(alloc),
            first: 0,
            last: 0,
            number: 0,
            is_over: false,
        }
    }

    /// The last line, without its newline and a carriage return before it.
    pub fn text(&self) -> &[u8]
        ensures { result.now ≡ text_in self.now }
    {
        let octets = if self.line.is_empty() {
            &self.chunk[self.first..self.last]
        } else {
            self.line.as_slice()
        };
        if self.is_over {
            return octets;
        }
        without_carriage_return(octets)
    }

    /// Finds the next line, and returns its number from 1, or none if there is no line left. Each
    /// call has the same source. Before each read, what is held is refused in this order:
    /// `TooManyLines` (over 100,000), `LineTooLong` (over 40,000 octets, a carriage return included
    /// and the newline not), `Memory`. `Read` is a read that failed.
    pub fn next<R: Source>(&mut self, reader: &mut R) -> Result<Option<u32>, ConsoleFault>
        requires device { R.failed_reads reader.old < 2 ^ 64 - 1 }
        requires end { is_at_end self.old ≡ true → IsAtEnd (R.remaining reader.old) }
        ensures lines { Finds (R.remaining reader.old) (R.remaining reader.new)
            self.old self.new result }
        ensures end { IfOk result (λ _.
            is_at_end self.new ≡ true → IsAtEnd (R.remaining reader.new)) }
        ensures reads { ReadsWithin (R.remaining reader.old) (R.remaining reader.new) self.old }
        ensures count { Counts ConsoleFault.Read
            (R.failed_reads reader.old) (R.failed_reads reader.new) result }
    {
        let count = length_before(b'\n', &self.chunk[self.start..self.end]);
        if count == self.end - self.start || self.number == MAX_LINES {
            return self.read(reader);
        }
        self.line.clear();
        self.first = self.start;
        self.last = self.start + count;
        self.start += count + 1;
        self.number += 1;
        Ok(Some(self.number))
    }

    /// Appends what is held to the line, up to a newline. True if there is one: it ends the line.
    fn take(&mut self) -> Result<bool, ConsoleFault>
        requires begun { self.old.is_over ≡ false }
        requires apart { self.old.first ≡ self.old.last }
        requires one_line { is_one_line self.old.line.items ≡ true }
        requires short { vec_len self.old.line ≤ MAX_LINE_OCTETS }
        requires few { self.old.line.items ≢ [] → self.old.number < MAX_LINES }
        ensures begun { self.new.is_over ≡ false }
        ensures apart { self.new.first ≡ self.new.last }
        ensures one_line { IfOk result (λ _. is_one_line self.new.line.items ≡ true) }
        ensures short { IfOk result (λ _. vec_len self.new.line ≤ MAX_LINE_OCTETS) }
        ensures ended { IfOk result (λ ended. ended ≡ true →
            (self.new.number ≡ self.old.number + 1) × (self.old.number < MAX_LINES)
            × (self.old.line.items ++ octets_left self.old ≡
            self.new.line.items ++ 10 ∷ octets_left self.new)) }
        ensures open { IfOk result (λ ended. ended ≡ false →
            (self.new.number ≡ self.old.number)
            × (self.new.line.items ≢ [] → self.new.number < MAX_LINES)
            × (self.new.line.items ≡ self.old.line.items ++ octets_left self.old)) }
        ensures fault { IfErr result (λ fault. (fault ≢ ConsoleFault.Read)
            × HasFault self.old.number (self.old.line.items ++ octets_left self.old) fault) }
    {
        let count = length_before(b'\n', &self.chunk.as_slice()[self.start..self.end]);
        let left = self.end - self.start;
        if self.number == MAX_LINES && left > 0 {
            return Err(ConsoleFault::TooManyLines);
        }
        if self.line.len() + count > MAX_LINE_OCTETS {
            return Err(ConsoleFault::LineTooLong(self.number + 1));
        }
        let held = &self.chunk.as_slice()[self.start..self.end];
        self.line.extend_from_slice(&held[..count])?;
        if count == left {
            return Ok(false);
        }
        self.start += count + 1;
        self.number += 1;
        Ok(true)
    }

    /// Finds the next line as `next` does, if no newline is held or 100,000 lines were read.
    fn read<R: Source>(&mut self, reader: &mut R) -> Result<Option<u32>, ConsoleFault>
        requires device { R.failed_reads reader.old < 2 ^ 64 - 1 }
        requires end { is_at_end self.old ≡ true → IsAtEnd (R.remaining reader.old) }
        ensures lines { Finds (R.remaining reader.old) (R.remaining reader.new)
            self.old self.new result }
        ensures end { IfOk result (λ _.
            is_at_end self.new ≡ true → IsAtEnd (R.remaining reader.new)) }
        ensures reads { ReadsWithin (R.remaining reader.old) (R.remaining reader.new) self.old }
        ensures count { Counts ConsoleFault.Read
            (R.failed_reads reader.old) (R.failed_reads reader.new) result }
    {
        self.line.clear();
        self.last = self.first;
        if self.is_over {
            return Ok(None);
        }
        loop {
            if self.take()? {
                return Ok(Some(self.number));
            }
            let Some(count) = reader.read(&mut self.chunk) else {
                return Err(ConsoleFault::Read);
            };
            self.start = 0;
            self.end = count;
            if count == 0 {
                self.is_over = true;
                if self.line.is_empty() {
                    return Ok(None);
                }
                self.number += 1;
                return Ok(Some(self.number));
            }
        }
    }
}
