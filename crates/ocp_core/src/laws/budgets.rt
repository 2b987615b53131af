//! Budgets, over every list of events. The function does nothing when it runs: its contract is the
//! law.
ghost use Rattle.ocp_core.specs.Budget.{IsWithinBudget, RemainsAreCounted, FaultsSpent};

/// A procedure that was activated with a budget of n > 0 does at most n instructions until it is
/// activated again or unloaded: since its last activation at most n of its instruction events are
/// answered that the instruction ran, that it was an engine call, or that it was the last exit.
/// What remains of the budget is what was given less what was used, whatever happened in between.
/// An instruction event of a running procedure is the fault BudgetSpent exactly if no breakpoint
/// holds it and the budget is spent.
pub fn budgets_are_kept()
    ensures within { IsWithinBudget }
    ensures remains { RemainsAreCounted }
    ensures fault { FaultsSpent }
{}
