//! What is left of a procedure's budget.
ghost use Rattle.std.specs.Prelude.{◌≡◌};
ghost use Rattle.ocp_table.specs.Clauses.{less};

/// Takes `count` instructions from what is left. Writes nothing if no budget is set.
#[inline(always)]
pub(crate) fn spend(count: u32, remaining: &mut Option<u32>)
    ensures { remaining.new ≡ less count remaining.old }
{
    if let Some(left) = remaining {
        *left = left.saturating_sub(count);
    }
}
