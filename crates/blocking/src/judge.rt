// Judge: whether a list of block numbers made by anyone is feasible.
ghost use Rattle.std.specs.Prelude.{◌≡◌};
ghost use Rattle.study.specs.Refusals.{verdict_of};
ghost use Rattle.validity.specs.View.{seen};
ghost use Rattle.access.specs.Calls.{answer, reply};
ghost use Rattle.blocking.specs.Calls.{judges_list, judged_reply};

use crate::input::study_of;
use crate::judging::Proposal;
use crate::tides::check_tides;
use blocking_core::measure::widest;
use study::Refusal;
use validity::view::View;

// The answer alone: whether the list is judged at all.
fn judge_answer(view: View, list: &[u8]) -> Result<(), Refusal>
    ensures { verdict_of result ≡ answer (seen view.entry) (judges_list list.now) }
{
    check_tides(view)?;
    if list.len() != view.dataset.n {
        return Err(Refusal::ListLength);
    }
    Ok(())
}

// The greatest diameter where the list is feasible; none where it is not.
pub fn judge(view: View, list: &[u8]) -> Result<Option<u32>, Refusal>
    ensures { judged_reply result ≡ reply (seen view.entry) (judges_list list.now) }
{
    judge_answer(view, list)?;
    let proposal = Proposal {
        study: study_of(view),
        list,
    };
    if !proposal.numbers_valid() {
        return Ok(None);
    }
    if !proposal.blocks_meet() {
        return Ok(None);
    }
    Ok(Some(widest(&proposal.study, list)))
}
