ghost use Rattle.std.specs.Prelude.{◌≡◌, ◌≤◌, ◌++◌, OnOk, IfOk, decimal, flat_map};
ghost use Rattle.pl_io.specs.Lines.{with_newline};
ghost use Rattle.pl_report.specs.Demonstration.{kind_words, goal_line, tick_line, messages_for, demo_text};

use pl_text::push_number;
use std::alloc::{AllocError, Global};

const MODEL: &str = "horizon 1000000
lead 100
capacity cam 10
level bat 0 1000 500
kind obs { duration 5 use cam 6 lower bat 3 at end }
kind shot { duration 4 use cam 4 }
kind charge { duration 10 raise bat 200 at end }
kind scan { duration 10 alternative { slot a shot slot b shot order a end b start 0 3 } }
begin
";

fn kind_words(goal: u32) -> &'static [u8]
    ensures { result.now ≡ kind_words goal }
{
    if goal % 2 == 1 { b" obs " } else { b" scan " }
}

fn push_text_and_number(text: &mut Vec<u8>, label: &[u8], number: u32) -> Result<(), AllocError>
    ensures { OnOk result (text.new.items ≡ text.old.items ++ (label.now ++ decimal number)) }
{
    text.extend_from_slice(label)?;
    push_number(text, i64::from(number))?;
    Ok(())
}

#[tactic(auto, using(crate::proofs::Texts::texts_joined))]
fn push_goal(text: &mut Vec<u8>, goal: u32) -> Result<(), AllocError>
    requires { goal ≤ 4000 }
    ensures { OnOk result (text.new.items ≡ text.old.items ++ with_newline (goal_line goal)) }
{
    push_text_and_number(text, b"goal ", goal)?;
    push_text_and_number(text, kind_words(goal), 20 * goal + 200)?;
    push_text_and_number(text, b" ", 20 * goal + 260)?;
    text.extend_from_slice(b" must\n")?;
    Ok(())
}

#[tactic(auto, using(crate::proofs::Texts::texts_joined))]
fn push_messages(text: &mut Vec<u8>, goal: u32) -> Result<(), AllocError>
    requires { goal ≤ 4000 }
    ensures { OnOk result (text.new.items ≡ text.old.items ++ flat_map with_newline (messages_for goal)) }
{
    push_goal(text, goal)?;
    push_text_and_number(text, b"tick ", 20 * goal)?;
    text.push(b'\n')?;
    Ok(())
}

/// The input of the demonstration for this many goals.
pub fn demo_input(alloc: Global, n: u32) -> Result<Vec<u8>, AllocError>
    requires { (1 ≤ n) × (n ≤ 4000) }
    ensures { IfOk result (λ text. text.items ≡ demo_text n) }
{
    let mut text = Vec::from_slice(alloc, MODEL.as_bytes())?;
    for done in 0..n {
        push_messages(&mut text, done + 1)?;
    }
    text.extend_from_slice(b"end\n")?;
    Ok(text)
}
