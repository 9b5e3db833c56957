ghost use Rattle.std.specs.Prelude.{◌≡◌, ◌++◌, OnOk, codes};
ghost use Rattle.pl_journal.specs.Rendering.Lines.{reply_words};
ghost use Rattle.pl_report.specs.Lines.{line_with};
ghost use Rattle.pl_report.specs.Reports.{command_line, command_lines};

use pl_entry::{Entry, Event, Reply};
use pl_journal::push_reply;
use pl_model::Model;
use std::alloc::AllocError;

#[tactic(auto, using(crate::proofs::Texts::line_joined))]
fn push_sent_line(text: &mut Vec<u8>, model: &Model, sent: &Reply) -> Result<(), AllocError>
    ensures { OnOk result (text.new.items ≡ text.old.items ++ line_with (codes "command") (reply_words model.now sent.now)) }
{
    text.extend_from_slice(b"command")?;
    push_reply(text, model, sent)?;
    text.push(b'\n')?;
    Ok(())
}

/// Appends the line of a command, where the entry sends one.
fn push_command_line(text: &mut Vec<u8>, model: &Model, entry: &Entry) -> Result<(), AllocError>
    ensures { OnOk result (text.new.items ≡ text.old.items ++ command_line model.now entry.now) }
{
    match &entry.event {
        Event::Dispatch => push_sent_line(text, model, &entry.reply),
        _ => Ok(()),
    }
}

/// Appends a line for each command that was sent.
pub(crate) fn push_commands(
    text: &mut Vec<u8>,
    model: &Model,
    log: &[Entry],
) -> Result<(), AllocError>
    ensures { OnOk result (text.new.items ≡ text.old.items ++ command_lines model.now log.now) }
{
    for entry in log {
        push_command_line(text, model, entry)?;
    }
    Ok(())
}
