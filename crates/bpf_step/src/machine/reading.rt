//! What is read of a machine.
ghost use Rattle.std.specs.Prelude.{◌≡◌, ◌≤◌, length, IfErr, OnOk, OnErr, Some, None};
ghost use Rattle.ocp_regions.specs.Memory.{octets_at};
ghost use Rattle.ocp_regions.specs.declared.fault.AccessFault.TheVariants.{AccessOutside};

use crate::frame::MAX_LOCAL_CALLS;
use crate::machine::Machine;
use bpf_moves::Registers;
use ocp_regions::AccessFault;
use std::alloc::Allocator;

impl<A: Allocator> Machine<A> {
    /// R0 to R10.
    pub fn registers(&self) -> Registers
        ensures { result ≡ self.now.registers }
    {
        self.registers
    }

    /// Reads octets of the memory from an address on, one into each of the slice. Refused with
    /// AccessOutside if one of them is not there; the slice is then unchanged.
    pub fn octets(&self, address: u64, octets: &mut [u8]) -> Result<(), AccessFault>
        ensures ok { OnOk result
            (octets_at self.now.memory address (length octets.old) ≡ Some octets.new) }
        ensures err { IfErr result (λ fault. fault ≡ AccessOutside) }
        ensures outside { OnErr result
            (octets_at self.now.memory address (length octets.old) ≡ None) }
        ensures kept { OnErr result (octets.new ≡ octets.old) }
    {
        self.memory.octets(address, octets)
    }

    /// The slot of the next instruction.
    pub fn place(&self) -> u16
        ensures { result ≡ self.now.place }
    {
        self.place
    }

    /// How many local calls are open.
    pub fn depth(&self) -> usize
        ensures value { result ≡ length self.now.frames }
        ensures bound { result ≤ MAX_LOCAL_CALLS }
    {
        self.frames.len()
    }
}
