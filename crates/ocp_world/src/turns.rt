//! Whose turn is next.

ghost use Rattle.std.specs.Prelude.{◌≡◌, ◌↔◌, ℕ, None, IfSome};
ghost use Rattle.ocp_world.specs.Clauses.{IsNextRunning, IsWorld, Runs, World, first_from, next_in, runs_from};

use crate::State;
use ocp_table::{Status, StatusRow};
use std::alloc::Allocator;

// Whether the procedure of a row runs, and its id is not below this one.
fn runs_from(row: &StatusRow, from: u32) -> bool
    ensures { result ≡ runs_from from row.now }
{
    match row.status {
        Status::Running => from <= u32::from(row.id),
        Status::Inactive | Status::Held => false,
    }
}

// The first running procedure of rows, from this id on.
fn first_running(rows: &[StatusRow], from: u32) -> Option<u16>
    ensures { result ≡ first_from from rows.now }
{
    for row in rows {
        if runs_from(row, from) {
            return Some(row.id);
        }
    }
    None
}

// The running procedure of rows whose turn is next.
fn next_of(rows: &[StatusRow], before: Option<u16>) -> Option<u16>
    ensures { result ≡ next_in before rows.now }
{
    let from = match before {
        Some(id) => u32::from(id) + 1,
        None => 0,
    };
    match first_running(rows, from) {
        Some(id) => Some(id),
        None => first_running(rows, 0),
    }
}

impl<A: Allocator> State<A> {
    /// The least running procedure above the one before, or the least running one if none is above
    /// it.
    pub fn next_running(&self, before: Option<u16>) -> Option<u16>
        ensures pick { (w : World) → IsWorld w self.now → IsNextRunning w.records before result }
        ensures runs { (w : World) → IsWorld w self.now → IfSome result (Runs w.records) }
        ensures none { (w : World) → IsWorld w self.now →
            result ≡ None ↔ ((id : ℕ) → Runs w.records id → ⊥) }
    {
        let rows = self.table.statuses();
        next_of(rows.as_slice(), before)
    }
}
