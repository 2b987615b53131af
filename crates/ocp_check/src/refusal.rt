//! Why a place is not shown to be without faults.

use crate::certificate::Node;
use crate::covering::range_of;
use crate::range::Range;
use crate::steps::is_inside;
use bpf_step::MAX_LOCAL_CALLS;
use bpf_types::{Line, Reg};
use ocp_regions::{ARGUMENT_OCTETS, ARGUMENTS};

/// What may happen at a place. "May": it was not shown that it does not.
#[derive(Clone, Copy, Debug)]
pub enum Why {
    /// An access outside of all regions, by what is known of its base register.
    Outside(Reg, Option<Range>),
    /// A store to the arguments, by what is known of its base register.
    Arguments(Reg, Option<Range>),
    /// A local call with seven open.
    Depth,
    /// A call of the pool for a word that it does not have, by what is known of R1.
    Index(Option<Range>),
    /// The search ended before what is known at the next slot was settled.
    Unsettled,
}

/// A place that is not shown to be without faults.
#[derive(Clone, Copy, Debug)]
pub struct Refusal {
    pub slot: u16,
    pub why: Why,
}

/// Whether a range has a number that the arguments have as an address.
fn meets_arguments(range: Range) -> bool {
    range.low < ARGUMENTS + ARGUMENT_OCTETS as u64 && ARGUMENTS <= range.high
}

/// Why a store is not shown.
fn store_reason(base: Reg, known: Option<Range>) -> Why {
    match known {
        Some(range) if meets_arguments(range) => Why::Arguments(base, known),
        _ => Why::Outside(base, known),
    }
}

/// Why a line is not shown, by what the certificate says at its slot. If its access is inside, what
/// is known at the next slot is not settled.
pub(crate) fn reason(node: &Node, line: Line) -> Why {
    match line {
        Line::CallLocal { .. } if usize::from(node.depth) >= MAX_LOCAL_CALLS => Why::Depth,
        _ if is_inside(node, &line) => Why::Unsettled,
        Line::Load { base, .. } | Line::LoadExtended { base, .. } => Why::Outside(
            base,
            range_of(&node.row, base),
        ),
        Line::StoreImmediate { base, .. } | Line::Store { base, .. } => store_reason(
            base,
            range_of(&node.row, base),
        ),
        _ => Why::Unsettled,
    }
}
