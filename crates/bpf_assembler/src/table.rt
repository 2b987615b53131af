//! The labels and the instructions of a text. What the map of labels states about references, these
//! functions state about the names' octets.

ghost use Rattle.std.specs.Prelude.{◌≡◌, [], ℕ, List, Some, if◌then◌else◌, OnOk, IfOk};
ghost use Rattle.std.specs.Str.{bytes_eq};
ghost use Rattle.bpf_assembler.specs.Mirror.Passes.{Knows};
ghost use Rattle.bpf_assembler.specs.Mirror.Tables.{label_at};

use bpf_types::Line;
use std::alloc::{AllocError, Allocator};
use std::collections::BTreeMap;

/// The place of the label.
pub(crate) fn place_at<A: Allocator>(labels: &BTreeMap<&[u8], u64, A>, name: &[u8]) -> Option<u64>
    ensures { result ≡ label_at labels.now name.now }
{
    labels.get(name).copied()
}

/// Puts a label at a place, and returns the place that it had.
pub(crate) fn put<'a, A: Allocator + Clone>(
    labels: &mut BTreeMap<&'a [u8], u64, A>,
    name: &'a [u8],
    place: u64,
) -> Result<Option<u64>, AllocError>
    ensures old { IfOk result (λ old. old ≡ label_at labels.old name.now) }
    ensures new { OnOk result ((q : List ℕ) →
        label_at labels.new q ≡
        (if bytes_eq name.now q then Some place else label_at labels.old q)) }
{
    Ok(labels.insert(name, place)?)
}

/// An instruction with the number of its line and its place, and the label's name that is in place
/// of its distance.
#[derive(Clone, Copy)]
pub(crate) struct Row<'a> {
    pub number: u64,
    pub place: u64,
    pub line: Line,
    pub name: Option<&'a [u8]>,
}

/// The labels and the instructions of the lines so far, how many lines those are, and the slot
/// after them.
#[derive(Drop)]
pub(crate) struct Table<'a, A: Allocator> {
    pub labels: BTreeMap<&'a [u8], u64, A>,
    pub rows: Vec<Row<'a>, A>,
    pub lines: u64,
    pub place: u64,
}

impl<'a, A: Allocator + Copy> Table<'a, A> {
    /// The table of no lines.
    pub fn new(alloc: A) -> Self
        ensures { Knows result.labels result.rows.items result.lines result.place [] }
    {
        Table {
            labels: BTreeMap::new(alloc),
            rows: Vec::new(alloc),
            lines: 0,
            place: 0,
        }
    }
}
