ghost use Rattle.std.specs.Prelude.{◌≡◌, [], ◌∷◌, ◌++◌, OnOk, Some};
ghost use Rattle.pl_journal.specs.Rendering.Words.{spaced};
ghost use Rattle.pl_plan.specs.Activities.{activity_of};
ghost use Rattle.pl_semantics.specs.Whole.{IsWhole};
ghost use Rattle.pl_report.specs.Reports.{end_word, place_words, status_word, activity_words, activity_line, activity_lines};

use pl_journal::{kind_name, push_count, push_labelled, push_word};
use pl_plan::Activity;
use pl_semantics::PlanState;
use std::alloc::AllocError;

fn push_end(text: &mut Vec<u8>, end: Option<u32>) -> Result<(), AllocError>
    ensures { OnOk result (text.new.items ≡ text.old.items ++ spaced (end_word end ∷ [])) }
{
    match end {
        Some(end) => push_count(text, end),
        None => push_word(text, b"-"),
    }
}

fn push_place(text: &mut Vec<u8>, parent: Option<(u32, u32)>) -> Result<(), AllocError>
    ensures { OnOk result (text.new.items ≡ text.old.items ++ spaced (place_words parent)) }
{
    match parent {
        Some((id, _)) => push_labelled(text, b"in", id),
        None => push_word(text, b"root"),
    }
}

fn status_word(committed: bool) -> &'static [u8]
    ensures { result.now ≡ status_word committed }
{
    if committed { b"committed" } else { b"planned" }
}

#[tactic(auto, using(pl_journal::proofs::AboutRendering::Texts::words_joined))]
fn push_activity_words(
    text: &mut Vec<u8>,
    state: &PlanState,
    activity: &Activity,
) -> Result<(), AllocError>
    requires whole { IsWhole state.now }
    requires live { activity_of activity.now.id state.now.plan.activities ≡ Some activity.now }
    ensures { OnOk result (text.new.items ≡ text.old.items ++ spaced (activity_words state.now activity.now)) }
{
    let model = state.model.get();
    push_count(text, activity.id)?;
    push_word(text, kind_name(model, activity.kind))?;
    push_count(text, activity.start)?;
    push_end(text, state.plan.end(model, activity.id))?;
    push_place(text, activity.parent)?;
    push_word(text, status_word(activity.start < state.committed))?;
    Ok(())
}

#[tactic(auto, using(crate::proofs::Texts::line_joined))]
fn push_activity_line(
    text: &mut Vec<u8>,
    state: &PlanState,
    activity: &Activity,
) -> Result<(), AllocError>
    requires whole { IsWhole state.now }
    requires live { activity_of activity.now.id state.now.plan.activities ≡ Some activity.now }
    ensures { OnOk result (text.new.items ≡ text.old.items ++ activity_line state.now activity.now) }
{
    text.extend_from_slice(b"activity")?;
    push_activity_words(text, state, activity)?;
    text.push(b'\n')?;
    Ok(())
}

/// Appends a line for each activity, by rising id.
pub(crate) fn push_activities(text: &mut Vec<u8>, state: &PlanState) -> Result<(), AllocError>
    requires { IsWhole state.now }
    ensures { OnOk result (text.new.items ≡ text.old.items ++ activity_lines state.now) }
{
    let activities = state.plan.activities();
    for activity in activities {
        push_activity_line(text, state, activity)?;
    }
    Ok(())
}
