//! Requests.

ghost use Rattle.std.specs.Prelude.{◌≡◌, ◌↔◌, IsTrue};

use crate::payload::{Arguments, Code, Words};
use ocp_profile::Profile;

/// The service type of on-board control procedures.
pub const SERVICE: u8 = 18;

/// A request of service 18 (ECSS-E-ST-70-41C, 6.18).
#[derive(Drop)]
pub enum Request<'a> {
    /// Loads a procedure, by its code.
    Load {
        id: u16,
        code: Code<'a>,
    },
    /// Unloads a procedure.
    Unload {
        id: u16,
    },
    /// Activates a procedure with these arguments and a budget of instructions; 0 is none. Profile
    /// One carries no other budget.
    Activate {
        id: u16,
        budget: u32,
        arguments: Arguments<'a>,
    },
    /// Stops a procedure at the end of this step, or of any step if it is 0.
    Stop {
        id: u16,
        step: u16,
    },
    /// Suspends a procedure at the end of this step, or of any step if it is 0.
    Suspend {
        id: u16,
        step: u16,
    },
    /// Resumes a held procedure.
    Resume {
        id: u16,
    },
    /// Communicates parameters to a procedure.
    Communicate {
        id: u16,
        words: Words,
    },
    /// Asks for the status report.
    Status,
    /// Aborts a procedure.
    Abort {
        id: u16,
    },
}

impl Request<'_> {
    ghost use Rattle.obcp_messages.specs.Request.{HasFittingBudget, subtype_of};

    /// The message subtype.
    pub fn subtype(&self) -> u8
        ensures { result ≡ subtype_of self.now }
    {
        match self {
            Request::Load { .. } => 1,
            Request::Unload { .. } => 2,
            Request::Activate { .. } => 3,
            Request::Stop { .. } => 4,
            Request::Suspend { .. } => 5,
            Request::Resume { .. } => 6,
            Request::Communicate { .. } => 7,
            Request::Status => 8,
            Request::Abort { .. } => 12,
        }
    }

    /// Whether the data of this profile can carry the request: under One the budget of an
    /// activation is 0.
    pub fn has_fitting_budget(&self, profile: Profile) -> bool
        ensures { IsTrue result ↔ HasFittingBudget profile self.now }
    {
        match self {
            Request::Activate { budget, .. } => profile == Profile::Two || *budget == 0,
            _ => true,
        }
    }
}
