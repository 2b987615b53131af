//! The trace records that are kept.
ghost use Rattle.std.specs.Prelude.{◌≡◌, ◌≤◌, ◌<◌, ◌++◌, ◌∷◌, [], IfOk, length, option_copied, slice_get};
ghost use Rattle.ocp_debug.specs.Clauses.{Appends, flat_map, last_traces, trace_line};

use crate::texts::line_of;
use crate::{TRACE_RECORDS, Trace};
use circular_buffer::HeapCircularBuffer;
use std::alloc::{AllocError, Allocator, Global};
use std::marker::Model;

/// The last 256 trace records, the oldest first. Contracts see them as a list.
#[derive(Drop)]
pub struct TraceRing<A: Allocator = Global> {
    records: HeapCircularBuffer<Trace, A>,
}

impl<A: Allocator> Model for TraceRing<A> {
    ghost use Rattle.std.specs.Prelude.{List};
    ghost use Rattle.ocp_debug.specs.declared.trace.Trace.{Trace as Kept};

    ghost Value = { List Kept };

    ghost view = { λ r. r.records.items };

    ghost use Rattle.ocp_debug.specs.Mirror.Ring.{IsTraceBuffer};

    ghost invariant = { λ r. IsTraceBuffer r.records };
}

impl<A: Allocator> TraceRing<A> {
    /// A ring without records, with room for all that it may keep.
    pub fn new(alloc: A) -> Result<Self, AllocError>
        ensures { IfOk result (λ ring. ring ≡ []) }
    {
        let records = HeapCircularBuffer::with_capacity(alloc, TRACE_RECORDS)?;
        Ok(TraceRing { records })
    }

    /// How many records are kept.
    pub fn len(&self) -> usize
        ensures value { result ≡ length self.now }
        ensures few { result ≤ TRACE_RECORDS }
    {
        self.records.len()
    }

    /// The record of an index, counted from the oldest, if it is kept.
    pub fn record(&self, index: u64) -> Option<&Trace>
        ensures { option_copied result ≡ slice_get self.now index }
    {
        self.records.get(index as usize)
    }

    /// Adds a record. A full ring drops its oldest one.
    pub(crate) fn push(&mut self, trace: Trace)
        ensures { self.new ≡ last_traces (self.old ++ trace ∷ []) }
    {
        self.records.push_back(trace);
    }

    /// How many octets the lines have.
    fn lines_len(&self) -> usize
        ensures { result ≡ length (flat_map trace_line self.now) }
    {
        let mut len = 0;
        for trace in &self.records {
            len += line_of(trace).as_slice().len();
        }
        len
    }

    /// Appends the line of each record, the oldest first.
    ///
    /// It is refused only for memory, and only if the lines do not fit into the capacity that
    /// `output` has. Then `output` stays as it was.
    pub fn write_lines<B: Allocator>(&self, output: &mut Vec<u8, B>) -> Result<(), AllocError>
        ensures { Appends (flat_map trace_line self.now) output.old output.new result }
    {
        output.reserve(self.lines_len())?;
        for trace in &self.records {
            output.extend_from_slice(line_of(trace).as_slice()).unwrap();
        }
        Ok(())
    }
}
