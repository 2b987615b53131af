//! The rows of a status report.

ghost use Rattle.std.specs.Prelude.{◌≡◌, ◌≤◌, ◌↔◌, length, IfSome, IsSome, IsTrue};
ghost use Rattle.obcp_messages.specs.Rows.{IsRising};

use arrayvec::ArrayVec;
use obcp_types::StatusRow;
use std::marker::Model;

/// The most rows of a status report: as many procedures can be loaded.
pub const MAX_ROWS: usize = 16;

/// Whether each identifier is below the next.
fn is_rising(rows: &[StatusRow]) -> bool
    ensures { IsTrue result ↔ IsRising rows.now }
{
    for i in 1..rows.len() {
        if rows[i].id <= rows[i - 1].id {
            return false;
        }
    }
    true
}

/// The rows of a status report: at most 16, by rising identifier.
#[derive(Drop)]
pub struct StatusRows {
    rows: ArrayVec<StatusRow, MAX_ROWS>,
}

impl Model for StatusRows {
    ghost use Rattle.std.specs.Prelude.{List};
    ghost use Rattle.obcp_types.specs.declared.status.StatusRow.{StatusRow as Row};
    ghost use Rattle.obcp_messages.specs.Rows.{IsRising};

    ghost Value = { List Row };

    ghost view = { λ r. r.rows.items };

    ghost invariant = { λ r. IsRising r.rows.items };
}

impl StatusRows {
    /// These rows, if their identifiers rise.
    pub fn new(rows: ArrayVec<StatusRow, MAX_ROWS>) -> Option<StatusRows>
        ensures value { IfSome result (λ value. value ≡ rows.items) }
        ensures variant { IsSome result ↔ IsRising rows.items }
    {
        if !is_rising(rows.as_slice()) {
            return None;
        }
        Some(StatusRows { rows })
    }

    /// The rows, by rising identifier.
    pub fn as_slice(&self) -> &[StatusRow]
        ensures value { result.now ≡ self.now }
        ensures rising { IsRising self.now }
        ensures bound { length self.now ≤ MAX_ROWS }
    {
        self.rows.as_slice()
    }
}
