//! The telecommands that a console sends.

use crate::console::Console;
use bitflags::Flags as _;
use obcp_messages::{Request, SERVICE, write_request};
use ocp_lines::Flags;
use pus_fields::{Ack, Tc, WriteFault, write_tc};
use std::alloc::{AllocError, Allocator};

impl<A: Allocator + Copy> Console<A> {
    ghost use Rattle.std.specs.Prelude.{◌≡◌, IfOk, OnOk};
    ghost use Rattle.ocp_lines.specs.Grammar.{IsCarried};
    ghost use Rattle.ocp_console.specs.Answering.{state_of, telecommand, with_next_count};

    /// The octets of the next telecommand, of this request and from source 0.
    pub(crate) fn telecommand(
        &mut self,
        alloc: A,
        flags: Flags,
        request: &Request,
    ) -> Result<Vec<u8, A>, AllocError>
        requires { IsCarried self.old.profile request.now }
        ensures packet { IfOk result (λ packet. packet.items ≡
            telecommand self.old.profile self.old.apid self.old.count flags.number request.now) }
        ensures state { OnOk result
            (state_of self.new ≡ with_next_count (state_of self.old)) }
        ensures output { self.new.output ≡ self.old.output }
    {
        let mut payload = Vec::new(alloc);
        write_request(self.profile, request, &mut payload)?;
        let ack = Ack::from_bits_retain(flags.number);
        let subtype = request.subtype();
        let tc = Tc::new(self.apid, self.count, ack, SERVICE, subtype, 0, &payload).unwrap();
        let mut packet = Vec::new(alloc);
        match write_tc(&tc, &mut packet) {
            Ok(()) => {}
            Err(WriteFault::Memory) => return Err(AllocError),
            Err(WriteFault::TooLong) => unreachable!(),
        }
        self.count = self.count.next();
        Ok(packet)
    }
}
