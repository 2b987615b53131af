//! What an instruction did, for C.

ghost use Rattle.std.specs.Prelude.{◌≡◌};
ghost use Rattle.ocp_c.specs.Calls.{outcome_or};

use ocp_flight::StepOutcome;

/// What an instruction did: its kind, numbered as in the header, and the number of its fault, 0
/// unless it faulted.
#[repr(C)]
#[derive(Clone, Copy)]
pub struct Outcome {
    pub kind: u32,
    pub fault: u32,
}

impl Outcome {
    /// Writes an outcome. A refusal leaves what was there.
    pub fn show(&mut self, outcome: StepOutcome)
        ensures { self.new ≡ outcome_or outcome self.old }
    {
        match outcome {
            StepOutcome::Broke => *self = Outcome { kind: 0, fault: 0 },
            StepOutcome::Ran => *self = Outcome { kind: 1, fault: 0 },
            StepOutcome::Called => *self = Outcome { kind: 2, fault: 0 },
            StepOutcome::Ended => *self = Outcome { kind: 3, fault: 0 },
            StepOutcome::Faulted(number) => {
                *self = Outcome {
                    kind: 4,
                    fault: u32::from(number),
                }
            }
            StepOutcome::NotLoaded | StepOutcome::NotRunning | StepOutcome::JournalFull => {}
        }
    }
}
