//! Where the lines of an image lead to.
ghost use Rattle.std.specs.Prelude.{◌≡◌, ◌≤◌, ◌<◌, ◌-◌, length, Some, None};
ghost use Rattle.ocp_loader.specs.Image.{line_in, target_of, never_falls_through};
ghost use Rattle.ocp_loader.specs.Mirror.Checks.{is_place, has_valid_target, first_bad_target, end_fault, lines_fault};

use crate::fault::LoadFault;
use crate::program::MAX_SLOTS;
use bpf_types::Line;

/// The line whose first slot this is.
pub(crate) fn line_in(lines: &[Option<Line>], slot: usize) -> Option<Line>
    ensures { result ≡ line_in lines.now slot }
{
    lines.get(slot).copied().flatten()
}

/// Whether a line has its first slot there.
fn is_place(lines: &[Option<Line>], place: i64) -> bool
    ensures { result ≡ is_place lines.now place }
{
    0 <= place && line_in(lines, place as usize).is_some()
}

/// Where a jump or a local call at the slot leads to, counted in slots.
fn target_of(slot: u16, line: Line) -> Option<i64>
    ensures { result ≡ target_of slot line }
{
    let next = i64::from(slot) + 1;
    match line {
        Line::Jump { distance } => Some(next + i64::from(distance)),
        Line::LongJump { distance } => Some(next + i64::from(distance)),
        Line::JumpIf { distance, .. } => Some(next + i64::from(distance)),
        Line::CallLocal { distance } => Some(next + i64::from(distance)),
        _ => None,
    }
}

/// Whether the line at the slot leads to a line, if it leads anywhere.
fn has_valid_target(lines: &[Option<Line>], slot: u16, line: Option<Line>) -> bool
    ensures { result ≡ has_valid_target lines.now slot line }
{
    let Some(line) = line else {
        return true;
    };
    match target_of(slot, line) {
        Some(place) => is_place(lines, place),
        None => true,
    }
}

/// The first slot whose line leads to no line.
#[tactic(auto, using(crate::proofs::Stays::astray_here, crate::proofs::Stays::aimed_here))]
fn first_bad_target(lines: &[Option<Line>]) -> Option<u16>
    requires { length lines.now ≤ MAX_SLOTS }
    ensures { result ≡ first_bad_target lines.now (length lines.now) }
{
    let slots = lines.len() as u16;
    for slot in 0..slots {
        if !has_valid_target(lines, slot, lines[usize::from(slot)]) {
            return Some(slot);
        }
    }
    None
}

/// Whether nothing falls through the line.
fn never_falls_through(line: Line) -> bool
    ensures { result ≡ never_falls_through line }
{
    matches!(line, Line::Jump { .. } | Line::LongJump { .. } | Line::Exit)
}

/// The fault of the last line, which is in the last slot or, if that slot has none, in the two last
/// ones.
fn end_fault(slots: u16, line: Option<Line>) -> Option<LoadFault>
    ensures { result ≡ end_fault slots line }
{
    match line {
        Some(line) if never_falls_through(line) => None,
        Some(_) => Some(LoadFault::FallsOffEnd(slots.saturating_sub(1))),
        None => Some(LoadFault::FallsOffEnd(slots.saturating_sub(2))),
    }
}

/// The first fault of lines that were read.
// Not inlined, so that its loop has all registers.
#[inline(never)]
pub(crate) fn lines_fault(lines: &[Option<Line>]) -> Option<LoadFault>
    requires { length lines.now ≤ MAX_SLOTS }
    ensures { result ≡ lines_fault lines.now (first_bad_target lines.now (length lines.now)) }
{
    match first_bad_target(lines) {
        Some(slot) => Some(LoadFault::BadTarget(slot)),
        None => end_fault(
            lines.len() as u16,
            line_in(lines, lines.len().saturating_sub(1)),
        ),
    }
}
