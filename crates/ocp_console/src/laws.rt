//! Laws of what is written.

ghost use Rattle.std.specs.Prelude.{All};
ghost use Rattle.ocp_console.specs.Texts.{HasLine};

use ocp_core::Reports;
use std::alloc::Allocator;

/// Each report of the engine, of a request or of a drain, has its line: it is read as telemetry,
/// and its line is that of this telemetry.
pub fn reports_have_their_lines<A: Allocator>(reports: &Reports<A>)
    ensures { All HasLine reports.now }
{
    // Nothing uses the packets: the read shows the proof what the type of reports guarantees.
    let _packets = reports.packets();
}
