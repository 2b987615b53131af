//! The check of a certificate against a whole image.
ghost use Rattle.std.specs.Prelude.{◌≡◌, ◌<◌, IsTrue, length};
ghost use Rattle.bpf_step.specs.Machine.{State};
ghost use Rattle.bpf_step.specs.Step.{one_step};
ghost use Rattle.bpf_step.specs.Reach.{Reaches};
ghost use Rattle.ocp_check.specs.Mirror.Start.{node_at_start};
ghost use Rattle.ocp_check.specs.Never.{NeverFaults};
ghost use Rattle.ocp_check.specs.Mirror.Fits.{Fits, FitsAfter};

use crate::certificate::Node;
use crate::covering::{covers, node_at};
use crate::range::{between, only};
use crate::steps::is_kept;
use crate::word::WORDS;
use bpf_moves::REGISTERS;
use bpf_step::FRAME_POINTER;
use bpf_step::laws::machines_started_anew_are_as_new;
use ocp_loader::{MAX_SLOTS, Program};
use ocp_regions::laws::memories_have_octets;
use ocp_regions::{ARGUMENT_OCTETS, ARGUMENTS};
use std::alloc::Allocator;

/// What is known of a machine that is started: R1 is the address of the arguments, R2 their number,
/// R10 the end of the stack, and all other registers are zero.
pub(crate) fn at_start() -> Node
    ensures { result ≡ node_at_start }
{
    let zero = only(0);
    let address = only(ARGUMENTS);
    let number = between(0, ARGUMENT_OCTETS as u64);
    let end = only(FRAME_POINTER);
    Node {
        row: [
            zero, address, number, zero, zero, zero, zero, zero, zero, zero, end,
        ],
        forms: [None; REGISTERS],
        words: [None; WORDS],
        kept: 0,
        spared: u64::MAX,
        depth: 0,
        promise: None,
    }
}

/// Whether what the certificate says at a slot is kept by the instruction there. A slot of which it
/// says nothing is kept: no machine comes there.
pub(crate) fn is_kept_at<A: Allocator>(
    program: &Program<A>,
    certificate: &[Option<Node>],
    slot: u16,
) -> bool
    ensures { IsTrue result → (s : State) → s.place ≡ slot → Fits certificate.now s →
        FitsAfter certificate.now s (one_step program.now s) }
{
    match node_at(certificate, slot) {
        Some(node) => match program.line_at(slot) {
            Some(line) => is_kept(certificate, slot, &node, line),
            None => false,
        },
        None => true,
    }
}

/// Whether a certificate shows that no machine of the image ever meets a fault of its own, with any
/// arguments and any answers. Nothing rests on how the certificate was found.
pub fn check<A: Allocator>(program: &Program<A>, certificate: &[Option<Node>]) -> bool
    ensures sound { IsTrue result → NeverFaults program.now }
    ensures fits { IsTrue result → (s : State) → Reaches program.now s → Fits certificate.now s }
    ensures within { IsTrue result → (s : State) → Reaches program.now s →
        s.place < length certificate.now }
    ensures after { IsTrue result → (s : State) → Reaches program.now s →
        FitsAfter certificate.now s (one_step program.now s) }
{
    machines_started_anew_are_as_new();
    memories_have_octets();
    if certificate.len() > MAX_SLOTS || !covers(certificate, 0, &at_start()) {
        return false;
    }
    for slot in 0..certificate.len() as u16 {
        if !is_kept_at(program, certificate, slot) {
            return false;
        }
    }
    true
}
