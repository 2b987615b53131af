//! How many procedures follow, and the end.
ghost use Rattle.std.specs.Prelude.{◌≤◌, IfOk};
ghost use Rattle.ocp_saved.specs.declared.fault.RestoreFault.TheVariants.{TableFull};
ghost use Rattle.ocp_saved.specs.Reading.{Gives, number_up_to};
ghost use Rattle.ocp_saved.specs.Restored.{at_end};

use crate::RestoreFault;
use crate::fields::u8_up_to;
use ocp_table::MAX_PROCEDURES;

/// The number of procedures, at most 16.
pub fn procedures_at(octets: &[u8]) -> Result<(u8, &[u8]), RestoreFault>
    ensures value { Gives (λ x. (x.0, x.1.now)) result
        (number_up_to 1 MAX_PROCEDURES TableFull octets.now) }
    ensures few { IfOk result (λ x. x.0 ≤ MAX_PROCEDURES) }
{
    u8_up_to(MAX_PROCEDURES as u8, RestoreFault::TableFull, octets)
}

/// Nothing follows.
pub fn end_at(octets: &[u8]) -> Result<(), RestoreFault>
    ensures { Gives (λ x. x) result (at_end tt octets.now) }
{
    if octets.is_empty() {
        Ok(())
    } else {
        Err(RestoreFault::Trailing)
    }
}
