//! What is known after an engine call.
ghost use Rattle.std.specs.Prelude.{◌≡◌, ◌≢◌, ℕ, false, IsTrue, Option, unsigned_abs};
ghost use Rattle.bpf_step.specs.Answers.{IsAnswer};
ghost use Rattle.bpf_step.specs.Calls.{state_after_engine_call};
ghost use Rattle.bpf_step.specs.Machine.{State};
ghost use Rattle.ocp_check.specs.Mirror.Ranges.{IsIn};
ghost use Rattle.ocp_check.specs.Mirror.Fits.{Certificate, Matches};

use crate::certificate::Node;
use crate::covering::with_register;
use crate::range::{Range, between, only};
use bpf_types::Reg;

/// The number of the engine call that takes a word from the mailbox.
pub(crate) const NEXT_PARAM: i32 = 4;

/// The number of the engine call that ends a step.
pub(crate) const STEP_END: i32 = 5;

/// What is known of R0 after an engine call: 0 or 1 after `next_param`, 0 after the end of a step.
fn r0_after(number: i32) -> Option<Range>
    ensures { (r0 : ℕ) (r1 : Option ℕ) → IsAnswer number r0 r1 → IsIn result r0 }
{
    if may_write_r1(number) {
        between(0, 1)
    } else if number == STEP_END {
        only(0)
    } else {
        None
    }
}

/// Whether an engine call may write R1.
pub(crate) fn may_write_r1(number: i32) -> bool
    ensures four { IsTrue result → unsigned_abs number ≡ 4 }
    ensures other { (result ≡ false) → unsigned_abs number ≢ 4 }
{
    number.unsigned_abs() == NEXT_PARAM.unsigned_abs()
}

/// What is known after an engine call, whatever it answers.
pub(crate) fn after_engine_call(node: &Node, number: i32) -> Node
    ensures { (certificate : Certificate) (s : State) (r0 : ℕ) (r1 : Option ℕ) →
        Matches certificate node.now s → IsAnswer number r0 r1 →
        Matches certificate result (state_after_engine_call s r0 r1) }
{
    let answered = with_register(node, Reg::zero(), r0_after(number), None);
    if may_write_r1(number) {
        with_register(&answered, Reg::one(), None, None)
    } else {
        answered
    }
}
