// A call made on a plan.
ghost use Rattle.std.specs.Prelude.{◌≡◌};
ghost use Rattle.kinds.specs.Replies.{after, told};
ghost use Rattle.plan_script.specs.Calls.{refusal_of, answer_of, edited};

use crate::call::{Answer, PlanCall};
use belt::plan::{BeltPlan, SEGMENTS};
use kinds::refusal::Refusal;

// Makes a call on a plan. O(1).
pub fn apply(plan: &mut BeltPlan, call: PlanCall) -> Result<Answer, Refusal>
    ensures answer { result ≡ told (refusal_of call) (answer_of call plan.old) }
    ensures plan { plan.new ≡ after (refusal_of call) plan.old (edited call plan.old) }
{
    match call {
        PlanCall::SetTransfer(from, to) => plan.set_transfer(from, to).map(|()| Answer::Done),
        PlanCall::ClearTransfer(from, to) => plan.clear_transfer(from, to).map(|()| Answer::Done),
        PlanCall::SetLock(segment) => plan.set_lock(segment).map(|()| Answer::Done),
        PlanCall::ClearLock(segment) => plan.clear_lock(segment).map(|()| Answer::Done),
        PlanCall::Transfers(segment) => Ok(Answer::Listed(plan.transfers(segment)?)),
        PlanCall::Permitted(from, to) => Ok(Answer::Said(plan.is_permitted(from, to)?)),
        PlanCall::Segments => Ok(Answer::Counted(SEGMENTS)),
    }
}
