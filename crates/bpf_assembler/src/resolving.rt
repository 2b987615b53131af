//! The second pass: the octets of the instructions, with the distances of the labels that they
//! name.

ghost use Rattle.std.specs.Prelude.{◌≡◌, List, map, MatchOption};
ghost use Rattle.bpf_types.specs.Line.{IsLine};
ghost use Rattle.bpf_text.specs.Lines.{TextLine};
ghost use Rattle.bpf_assembler.specs.Text.{with_distance};
ghost use Rattle.bpf_assembler.specs.Mirror.Passes.{AreLabels, Resolves, ResolvesAll, IsLineUpTo, entry};

use crate::fault::{AsmFault, Why};
use crate::table::{Row, place_at};
use bpf_decode::encode;
use bpf_types::{Line, lines_are_in_range};
use std::alloc::Allocator;
use std::collections::BTreeMap;

/// The jump or the local call with the distance, if it is in range.
fn with_distance(line: Line, distance: i128) -> Option<Line>
    ensures { MatchOption result (¬ IsLine (with_distance line distance))
        (λ l. (l ≡ with_distance line distance) × IsLine l) }
{
    lines_are_in_range(line);
    let short = i16::try_from(distance).ok();
    let long = i32::try_from(distance).ok();
    Some(match line {
        Line::Jump { .. } => Line::Jump { distance: short? },
        Line::LongJump { .. } => Line::LongJump { distance: long? },
        Line::CallLocal { .. } => Line::CallLocal { distance: long? },
        Line::JumpIf {
            width,
            comparison,
            dst,
            operand,
            ..
        } => Line::JumpIf {
            width,
            comparison,
            dst,
            operand,
            distance: short?,
        },
        other => other,
    })
}

/// The instruction of a row.
fn resolve<A: Allocator>(labels: &BTreeMap<&[u8], u64, A>, row: &Row<'_>) -> Result<Line, AsmFault>
    ensures { (ws : List TextLine) → AreLabels labels.now ws → Resolves ws (entry row.now) result }
{
    let Some(name) = row.name else {
        return Ok(row.line);
    };
    let Some(to) = place_at(labels, name) else {
        return Err(AsmFault::at(row.number, Why::UnknownLabel));
    };
    let distance = i128::from(to) - (i128::from(row.place) + 1);
    with_distance(row.line, distance).ok_or(AsmFault::at(row.number, Why::Range))
}

/// The octets of the instructions of all rows.
pub(crate) fn resolve_all<A: Allocator, B: Allocator>(
    alloc: B,
    labels: &BTreeMap<&[u8], u64, A>,
    rows: &[Row<'_>],
) -> Result<Vec<u8, B>, AsmFault>
    ensures { (ws : List TextLine) → AreLabels labels.now ws → ResolvesAll ws (map entry rows.now)
        (λ v. v.items) result }
{
    let mut octets = Vec::new(alloc);
    for row in rows {
        let line = resolve(labels, row)?;
        let copied = line;
        lines_are_in_range(copied);
        let slots = encode(line);
        octets.extend_from_slice(slots.as_slice())?;
    }
    Ok(octets)
}

/// The number of the line of the last instruction whose place is no greater than the slot, or 0 if
/// there is none.
pub(crate) fn line_up_to(rows: &[Row<'_>], slot: u16) -> u64
    ensures { IsLineUpTo (map entry rows.now) slot result }
{
    let mut number = 0;
    for row in rows {
        if row.place <= u64::from(slot) {
            number = row.number;
        }
    }
    number
}
