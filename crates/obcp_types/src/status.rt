//! The status of a procedure.

ghost use Rattle.std.specs.Prelude.{◌≡◌};
ghost use Rattle.obcp_types.specs.Codes.{status_code};

/// The status of a loaded procedure.
#[derive(Clone, Copy, PartialEq, Eq, Debug, Default)]
pub enum Status {
    #[default]
    Inactive = 0,
    Running = 1,
    Held = 2,
}

impl Status {
    /// The number of the status in a status report. The numbers are this product's own.
    pub fn code(self) -> u8
        ensures { result ≡ status_code self }
    {
        self as u8
    }
}

/// A row of a status report: a loaded procedure and its status.
#[derive(Clone, Copy, Default)]
pub struct StatusRow {
    pub id: u16,
    pub status: Status,
}
