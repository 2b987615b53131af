//! Which words of the pool an image asks for.
ghost use Rattle.std.specs.Prelude.{◌≡◌, ◌≢◌, ◌<◌, ℕ, ℤ, pos, IsTrue, None, slice_index_or};
ghost use Rattle.bpf_types.specs.declared.line.Line.TheVariants as kind;
ghost use Rattle.bpf_step.specs.declared.answer.Need.TheVariants as need;
ghost use Rattle.bpf_step.specs.Machine.{State, Needs, read};
ghost use Rattle.bpf_step.specs.Step.{one_step};
ghost use Rattle.ocp_check.specs.Mirror.Ranges.{IsIn};
ghost use Rattle.ocp_check.specs.Mirror.Fits.{Fits};
ghost use Rattle.ocp_check.specs.Never.{AsksWell};

use crate::answers::{NEXT_PARAM, STEP_END};
use crate::certificate::{Node, Row};
use crate::checker::check;
use crate::covering::{node_and_line, node_at};
use crate::range::{between, is_within};
use bpf_types::Line;
use ocp_loader::{MAX_SLOTS, Program};
use std::alloc::Allocator;

/// Whether a line that is a call of the pool has a word's index in R1.
fn line_asks_well(row: &Row, line: Line, words: u16) -> bool
    ensures { IsTrue result → (number : ℤ) (x : ℕ) → line ≡ kind.Call number →
        IsIn (slice_index_or row.now 1 None) x → number ≢ pos 4 → number ≢ pos 5 → x < words }
{
    match line {
        Line::Call { number } => {
            number == NEXT_PARAM
                || number == STEP_END
                || (words > 0 && is_within(row[1], between(0, u64::from(words) - 1)))
        }
        _ => true,
    }
}

/// The same of a slot of the image, by what the certificate says there.
pub(crate) fn slot_asks_well<A: Allocator>(
    program: &Program<A>,
    certificate: &[Option<Node>],
    slot: u16,
    words: u16,
) -> bool
    ensures { IsTrue result → (s : State) (number : ℤ) → s.place ≡ slot → Fits certificate.now s →
        one_step program.now s ≡ Needs (need.Call number) → number ≢ pos 4 → number ≢ pos 5 →
        read s 1 < words }
{
    match node_at(certificate, slot) {
        Some(node) => match program.line_at(slot) {
            Some(line) => line_asks_well(&node.row, line, words),
            None => true,
        },
        None => true,
    }
}

/// One more than the greatest index of a word that a call of the pool may ask for, if it is known.
pub(crate) fn words_asked<A: Allocator>(
    program: &Program<A>,
    certificate: &[Option<Node>],
) -> Option<u16> {
    let mut words = 0;
    for slot in 0..program.slots() as u16 {
        if let Some((node, Line::Call { number })) = node_and_line(program, certificate, slot) {
            if number != NEXT_PARAM && number != STEP_END {
                let most = u16::try_from(node.row[1]?.high).ok()?.checked_add(1)?;
                words = words.max(most);
            }
        }
    }
    Some(words)
}

/// Whether a certificate shows that the image never asks for a word that a pool of this many words
/// does not have.
pub fn check_pool<A: Allocator>(
    program: &Program<A>,
    certificate: &[Option<Node>],
    words: u16,
) -> bool
    ensures { IsTrue result → AsksWell program.now words }
{
    if !check(program, certificate) || certificate.len() > MAX_SLOTS {
        return false;
    }
    for slot in 0..certificate.len() as u16 {
        if !slot_asks_well(program, certificate, slot, words) {
            return false;
        }
    }
    true
}
