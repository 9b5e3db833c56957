ghost use Rattle.std.specs.Prelude.{◌≡◌, ◌++◌, OnOk};
ghost use Rattle.pl_journal.specs.Rendering.Words.{spaced};
ghost use Rattle.pl_report.specs.Reports.{duty_word, service_words, standing_words, server_of, goal_words, goal_line, goal_lines};

use pl_facts::Goal;
use pl_journal::{kind_name, push_count, push_labelled, push_word};
use pl_semantics::PlanState;
use std::alloc::AllocError;

fn duty_word(must: bool) -> &'static [u8]
    ensures { result.now ≡ duty_word must }
{
    if must { b"must" } else { b"may" }
}

fn push_service(text: &mut Vec<u8>, server: Option<u32>) -> Result<(), AllocError>
    ensures { OnOk result (text.new.items ≡ text.old.items ++ spaced (service_words server)) }
{
    match server {
        Some(id) => push_labelled(text, b"served", id),
        None => push_word(text, b"open"),
    }
}

/// Appends whether the goal is dropped, open or served.
fn push_standing(text: &mut Vec<u8>, state: &PlanState, goal: &Goal) -> Result<(), AllocError>
    ensures { OnOk result (text.new.items ≡ text.old.items ++ spaced (standing_words goal.now.dropped (server_of state.now goal.now))) }
{
    if goal.dropped {
        push_word(text, b"dropped")
    } else {
        push_service(text, state.plan.server(goal.number))
    }
}

#[tactic(auto, using(pl_journal::proofs::AboutRendering::Texts::words_joined))]
fn push_goal_words(text: &mut Vec<u8>, state: &PlanState, goal: &Goal) -> Result<(), AllocError>
    ensures { OnOk result (text.new.items ≡ text.old.items ++ spaced (goal_words state.now goal.now)) }
{
    push_count(text, goal.number)?;
    push_word(text, kind_name(state.model.get(), goal.kind))?;
    push_count(text, goal.earliest)?;
    push_count(text, goal.latest)?;
    push_word(text, duty_word(goal.must))?;
    push_standing(text, state, goal)?;
    Ok(())
}

#[tactic(auto, using(crate::proofs::Texts::line_joined))]
fn push_goal_line(text: &mut Vec<u8>, state: &PlanState, goal: &Goal) -> Result<(), AllocError>
    ensures { OnOk result (text.new.items ≡ text.old.items ++ goal_line state.now goal.now) }
{
    text.extend_from_slice(b"goal")?;
    push_goal_words(text, state, goal)?;
    text.push(b'\n')?;
    Ok(())
}

/// Appends a line for each goal, in the order in which they were accepted.
pub(crate) fn push_goals(text: &mut Vec<u8>, state: &PlanState) -> Result<(), AllocError>
    ensures { OnOk result (text.new.items ≡ text.old.items ++ goal_lines state.now) }
{
    let goals = state.goals.as_slice();
    for goal in goals {
        push_goal_line(text, state, goal)?;
    }
    Ok(())
}
