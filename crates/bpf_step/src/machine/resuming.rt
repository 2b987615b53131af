//! The parts of a machine, and a machine made of parts.
ghost use Rattle.std.specs.Prelude.{◌≡◌, ◌≤◌, length};
ghost use Rattle.ocp_regions.specs.Memory.{memory_of, zeros_over, IsWorkLength};

use crate::frame::{Frame, MAX_LOCAL_CALLS};
use crate::machine::{Machine, replace_frames};
use bpf_moves::Registers;
use ocp_regions::{ARGUMENT_OCTETS, Parts, STACK_OCTETS};
use std::alloc::Allocator;

impl<A: Allocator> Machine<A> {
    /// What the local calls that are open have saved, the latest last.
    pub fn frames(&self) -> &[Frame]
        ensures value { result.now ≡ self.now.frames }
        ensures few { length result.now ≤ MAX_LOCAL_CALLS }
    {
        self.frames.as_slice()
    }

    /// The octets of each region of the memory.
    pub fn parts(&self) -> Parts<'_>
        ensures memory { self.now.memory ≡
            memory_of result.stack.now result.arguments.now result.work.now }
        ensures stack { length result.stack.now ≡ STACK_OCTETS }
        ensures arguments { length result.arguments.now ≡ ARGUMENT_OCTETS }
        ensures work { IsWorkLength (length result.work.now) }
    {
        self.memory.parts()
    }

    /// Becomes a machine with these registers, at this place, with these saved frames and these
    /// octets, which make a memory that has the same addresses. It takes no memory.
    pub fn resume(&mut self, registers: Registers, place: u16, frames: &[Frame], memory: Parts<'_>)
        requires few { length frames.now ≤ MAX_LOCAL_CALLS }
        requires stack { length memory.stack.now ≡ STACK_OCTETS }
        requires arguments { length memory.arguments.now ≡ ARGUMENT_OCTETS }
        requires addresses { zeros_over self.old.memory ≡
            zeros_over (memory_of memory.stack.now memory.arguments.now memory.work.now) }
        ensures { self.new ≡ record {
          registers = registers;
          memory = memory_of memory.entry.stack.now memory.entry.arguments.now
              memory.entry.work.now;
          place = place;
          frames = frames.now;
        } }
    {
        self.registers = registers;
        self.memory.resume(memory);
        self.place = place;
        replace_frames(&mut self.frames, frames);
    }
}
