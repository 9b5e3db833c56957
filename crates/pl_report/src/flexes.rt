//! How far the activities of a plan can move, in lines.
ghost use Rattle.std.specs.Prelude.{◌≡◌, [], ◌∷◌, ◌++◌, OnOk, IfOk, false, flat_map, decimal};
ghost use Rattle.std.specs.Fmt.{signed_decimal};
ghost use Rattle.pl_journal.specs.Rendering.Words.{spaced};
ghost use Rattle.pl_report.specs.Flexes.{IsFlexText, IsTextFor, IsWindowsText, windows_line, window_line, edge_line, edge_lines, path_lines, windows_text, no_schedule_text};

use crate::heading::{push_length, push_value};
use pl_flex::{Flex, Flexed, Window, flex_windows};
use pl_journal::push_count;
use pl_lists::Items;
use pl_machine::Machine;
use pl_stn::Edge;
use std::alloc::{AllocError, Global};

#[tactic(auto, using(crate::proofs::Texts::line_joined))]
fn push_windows_line(text: &mut Vec<u8>, windows: &[Window]) -> Result<(), AllocError>
    ensures { OnOk result (text.new.items ≡ text.old.items ++ windows_line windows.now) }
{
    text.extend_from_slice(b"flex windows")?;
    push_length(text, windows.len())?;
    text.push(b'\n')?;
    Ok(())
}

#[tactic(auto, using(pl_journal::proofs::AboutRendering::Texts::words_joined))]
fn push_window_words(text: &mut Vec<u8>, window: &Window) -> Result<(), AllocError>
    ensures { OnOk result (text.new.items ≡ text.old.items ++ spaced (decimal window.now.id ∷ decimal window.now.least ∷ decimal window.now.greatest ∷ [])) }
{
    push_count(text, window.id)?;
    push_count(text, window.least)?;
    push_count(text, window.greatest)?;
    Ok(())
}

#[tactic(auto, using(crate::proofs::Texts::line_joined))]
fn push_window_line(text: &mut Vec<u8>, window: &Window) -> Result<(), AllocError>
    ensures { OnOk result (text.new.items ≡ text.old.items ++ window_line window.now) }
{
    text.extend_from_slice(b"window")?;
    push_window_words(text, window)?;
    text.push(b'\n')?;
    Ok(())
}

fn push_window_lines(text: &mut Vec<u8>, windows: &[Window]) -> Result<(), AllocError>
    ensures { OnOk result (text.new.items ≡ text.old.items ++ flat_map window_line windows.now) }
{
    for window in windows {
        push_window_line(text, window)?;
    }
    Ok(())
}

#[tactic(auto, using(pl_journal::proofs::AboutRendering::Texts::words_joined))]
fn push_edge_words(text: &mut Vec<u8>, edge: &Edge) -> Result<(), AllocError>
    ensures { OnOk result (text.new.items ≡ text.old.items ++ spaced (decimal edge.now.from ∷ decimal edge.now.to ∷ signed_decimal edge.now.most ∷ [])) }
{
    push_count(text, edge.from)?;
    push_count(text, edge.to)?;
    push_value(text, edge.most)?;
    Ok(())
}

#[tactic(auto, using(crate::proofs::Texts::line_joined))]
fn push_edge_line(text: &mut Vec<u8>, label: &[u8], edge: &Edge) -> Result<(), AllocError>
    ensures { OnOk result (text.new.items ≡ text.old.items ++ edge_line label.now edge.now) }
{
    text.extend_from_slice(label)?;
    push_edge_words(text, edge)?;
    text.push(b'\n')?;
    Ok(())
}

fn push_edge_lines(text: &mut Vec<u8>, label: &[u8], edges: &[Edge]) -> Result<(), AllocError>
    ensures { OnOk result (text.new.items ≡ text.old.items ++ edge_lines label.now edges.now) }
{
    for edge in edges {
        push_edge_line(text, label, edge)?;
    }
    Ok(())
}

fn push_path_lines(
    text: &mut Vec<u8>,
    label: &[u8],
    path: &Option<Items<Edge>>,
) -> Result<(), AllocError>
    ensures { OnOk result (text.new.items ≡ text.old.items ++ path_lines label.now path.now) }
{
    match path {
        Some(edges) => push_edge_lines(text, label, edges.as_slice()),
        None => Ok(()),
    }
}

#[tactic(auto, using(crate::proofs::Texts::four_texts))]
fn windows_text(
    alloc: Global,
    windows: &[Window],
    low: &Option<Items<Edge>>,
    high: &Option<Items<Edge>>,
) -> Result<Vec<u8>, AllocError>
    ensures { IfOk result (λ text. text.items ≡ windows_text windows.now low.now high.now) }
{
    let mut text = Vec::new(alloc);
    push_windows_line(&mut text, windows)?;
    push_window_lines(&mut text, windows)?;
    push_path_lines(&mut text, b"low", low)?;
    push_path_lines(&mut text, b"high", high)?;
    Ok(text)
}

fn no_schedule_text(alloc: Global, cycle: &[Edge]) -> Result<Vec<u8>, AllocError>
    ensures { IfOk result (λ text. text.items ≡ no_schedule_text cycle.now) }
{
    let mut text = Vec::from_slice(alloc, b"flex: no schedule\n")?;
    push_edge_lines(&mut text, b"cycle", cycle)?;
    Ok(text)
}

fn text_of_windows(alloc: Global, flex: &Flex, id: u64) -> Result<Vec<u8>, AllocError>
    ensures { IfOk result (λ text. IsWindowsText flex.now id text.items) }
{
    let low = flex.low_path(alloc, id)?;
    let high = flex.high_path(alloc, id)?;
    let text = windows_text(alloc, flex.windows(), &low, &high)?;
    Ok(text)
}

fn text_of_answer(alloc: Global, answer: &Flexed, id: u64) -> Result<Vec<u8>, AllocError>
    ensures { IfOk result (λ text. IsTextFor answer.now id text.items) }
{
    match answer {
        Flexed::Windows(flex) => text_of_windows(alloc, flex, id),
        Flexed::NoSchedule(cycle) => no_schedule_text(alloc, cycle.as_slice()),
        Flexed::TooMany(_) => Vec::from_slice(alloc, b"flex: too many\n"),
    }
}

/// How far the activities of a machine's plan can move, and the paths of the one of this id.
pub fn flex_text(alloc: Global, machine: &Machine, id: u64) -> Result<Vec<u8>, AllocError>
    requires { machine.now.spoiled ≡ false }
    ensures { IfOk result (λ text. IsFlexText machine.now.world.state id text.items) }
{
    let answer = flex_windows(alloc, machine.board().state())?;
    let text = text_of_answer(alloc, &answer, id)?;
    Ok(text)
}
