//! The listing of a program, slot by slot.
ghost use Rattle.std.specs.Prelude.{◌≡◌, ◌≤◌, ◌+◌, ◌++◌, Some, length, vec_capacity};
ghost use Rattle.bpf_canonical.specs.Canonical.{canonical};
ghost use Rattle.ocp_loader.specs.Mirror.Listed.{text_at, text_below};

use crate::program::{MAX_SLOTS, Program};
use bpf_canonical::text_of;
use bpf_types::Line;
use std::alloc::Allocator;

/// The number of octets of the lines of the first `slots` slots, each with a newline.
pub(crate) fn listing_len<A: Allocator>(program: &Program<A>, slots: u16) -> usize
    requires { slots ≤ MAX_SLOTS }
    ensures { result ≡ length (text_below program.now slots) }
{
    let mut len = 0;
    for slot in 0..slots {
        if let Some(line) = program.line_at(slot) {
            len += text_of(&line).as_slice().len() + 1;
        }
    }
    len
}

/// Appends a line with its newline. There must be room for it.
fn push_line<A: Allocator>(line: Line, out: &mut Vec<u8, A>)
    requires { length out.old.items + length (canonical line) + 1 ≤ vec_capacity out.old }
    ensures items { out.new.items ≡ out.old.items ++ text_at (Some line) }
    ensures capacity { vec_capacity out.old ≤ vec_capacity out.new }
{
    out.extend_from_slice(text_of(&line).as_slice()).unwrap();
    out.extend_from_slice(b"\n").unwrap();
}

/// Appends the lines of the first `slots` slots, each with a newline. There must be room for them.
pub(crate) fn push_listing<A: Allocator, B: Allocator>(
    program: &Program<A>,
    slots: u16,
    out: &mut Vec<u8, B>,
)
    requires { length out.old.items + length (text_below program.now slots) ≤ vec_capacity out.old }
    ensures items { out.new.items ≡ out.old.items ++ text_below program.now slots }
    ensures capacity { vec_capacity out.old ≤ vec_capacity out.new }
{
    for slot in 0..slots {
        if let Some(line) = program.line_at(slot) {
            push_line(line, out);
        }
    }
}
