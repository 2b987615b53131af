//! What a debugger reads of a procedure.
ghost use Rattle.std.specs.Prelude.{◌≡◌, Ok, Err};
ghost use Rattle.ocp_debug.specs.Clauses.{Reads, get, view_at};

use crate::{DebugFault, View};
use ocp_table::Table;
use std::alloc::Allocator;

/// What is shown of a procedure, if it is loaded. It is `Table::view`.
pub fn view<A: Allocator>(table: &Table<A>, id: u16) -> Option<View>
    ensures { result ≡ view_at (get table.now.records id) }
{
    table.view(id)
}

/// Fills the slice with octets of a procedure's memory, from an address on. Refused as NotLoaded,
/// and as OutsideMemory if one of them is not there; the slice then keeps its octets.
pub fn memory<A: Allocator>(
    table: &Table<A>,
    id: u16,
    address: u64,
    octets: &mut [u8],
) -> Result<(), DebugFault>
    ensures { Reads (get table.now.records id) address octets.old octets.new result }
{
    let Some(record) = table.record(id) else {
        return Err(DebugFault::NotLoaded);
    };
    match record.execution.machine().octets(address, octets) {
        Ok(()) => Ok(()),
        Err(_) => Err(DebugFault::OutsideMemory),
    }
}
