//! What a certificate says at a slot.
ghost use Rattle.std.specs.Prelude.{◌≡◌, Option, None};
ghost use Rattle.ocp_check.specs.Mirror.Callers.{node_after_return};

use crate::form::Forms;
use crate::range::Range;
use crate::word::{Words, above, later};
use bpf_moves::REGISTERS;

/// What is known of the eleven registers.
pub type Row = [Option<Range>; REGISTERS];

/// What is known of each machine whose place is a slot.
#[derive(Clone, Copy, PartialEq, Eq, Debug)]
pub struct Node {
    pub row: Row,
    /// Which registers are tied to one another.
    pub forms: Forms,
    /// What is known of words of the stack.
    pub words: Words,
    /// From this address on the stack is as it was when the innermost local call was opened.
    pub kept: u64,
    /// The most local calls that are open.
    pub depth: u8,
    /// What is known of R0 when the innermost of them ends.
    pub promise: Option<Range>,
    /// From this address on the stack is then as it was when the call was opened.
    pub spared: u64,
}

/// What is known after a local call, from what is known at the call and of R0 at its end: R6 to
/// R10 are as they were, and so is the stack from an address on. R1 to R5 are unknown.
pub(crate) fn after_return(node: &Node, promise: Option<Range>, floor: u64) -> Node
    ensures { result ≡ node_after_return node.now promise floor }
{
    let words = node.words;
    let row = node.row;
    let forms = node.forms;
    Node {
        row: [
            promise, None, None, None, None, None, row[6], row[7], row[8], row[9], row[10],
        ],
        forms: [
            None, None, None, None, None, None, forms[6], forms[7], forms[8], forms[9], forms[10],
        ],
        words: [
            above(floor, words[0]),
            above(floor, words[1]),
            above(floor, words[2]),
            above(floor, words[3]),
            above(floor, words[4]),
            above(floor, words[5]),
            above(floor, words[6]),
            above(floor, words[7]),
        ],
        kept: later(node.kept, floor),
        ..*node
    }
}
