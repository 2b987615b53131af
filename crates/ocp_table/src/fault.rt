//! Why a procedure ends in a fault.
ghost use Rattle.std.specs.Prelude.{◌≡◌};
ghost use Rattle.ocp_table.specs.Clauses.{fault_number};

use bpf_step::MachineFault;
use ocp_pool::PoolFault;
use thiserror::Error;

/// Why a procedure ends in a fault. Its machine is as before.
#[derive(Clone, Copy, PartialEq, Eq, Debug, Error)]
pub enum ProcedureFault {
    #[error(transparent)]
    Machine(MachineFault),
    #[error(transparent)]
    Pool(PoolFault),
    #[error("nothing is left of the budget")]
    BudgetSpent,
}

impl ProcedureFault {
    /// The number of the fault: 1 to 3 are the machine's, 4 is the pool's, 5 is BudgetSpent.
    pub fn number(self) -> u8
        ensures { result ≡ fault_number self }
    {
        match self {
            ProcedureFault::Machine(fault) => fault.number(),
            ProcedureFault::Pool(fault) => fault.number(),
            ProcedureFault::BudgetSpent => 5,
        }
    }
}
