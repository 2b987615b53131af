//! Trace records, for C.

ghost use Rattle.std.specs.Prelude.{◌≡◌};
ghost use Rattle.ocp_c.specs.Records.{record_of};

use crate::Outcome;
use ocp_debug::Trace;

/// Which procedure executed an instruction, at which slot, and what the instruction did.
#[repr(C)]
#[derive(Clone, Copy)]
pub struct Record {
    pub id: u32,
    pub place: u32,
    pub outcome: Outcome,
}

impl Record {
    /// Writes a trace record.
    pub fn show(&mut self, trace: &Trace)
        ensures { self.new ≡ record_of trace.now self.old }
    {
        self.id = u32::from(trace.id);
        self.place = u32::from(trace.place);
        self.outcome.show(trace.outcome);
    }
}
