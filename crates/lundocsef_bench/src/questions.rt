//! Questions: how many conflicts a move leaves at least, known without making it.
ghost use Rattle.std.specs.Prelude.{◌≡◌, ◌≤◌, true, false, All, IfOk};
ghost use Rattle.pl_moves.specs.Runs.{CanBeMade};
ghost use Rattle.lundocsef_bench.specs.Questions.{CanBeAsked};

use crate::answers::{Answer, Tally, tally_of};
use crate::boards::filled;
use anyhow::{Result, bail};
use pl_board::Board;
use pl_bounds::least_of_each;
use pl_cand::candidates;
use pl_conflict::Conflict;
use pl_moves::{legal, proper};
use pl_plan::RepairMove;
use std::alloc::{AllocError, Global};
use std::time::CpuClock;

/// The legal candidates of a conflict. They are asked about at once.
#[derive(Drop)]
pub struct Question {
    pub moves: Vec<RepairMove>,
}

// How many conflicts stand, what was found of the answers, and how many nanoseconds of the processor each of them took.
#[derive(Clone, Copy)]
struct Found {
    conflicts: usize,
    tally: Tally,
    nanos: u128,
}

// Whether a move is proper, and nothing refuses it.
fn can_make(board: &Board, mv: &RepairMove) -> bool
    requires { board.now.spoiled ≡ false }
    ensures { result ≡ true → CanBeMade board.now.state mv.now }
{
    proper(board, mv) && legal(board, mv).is_ok()
}

fn question_of(alloc: Global, board: &Board, conflict: &Conflict) -> Result<Question, AllocError>
    requires { board.now.spoiled ≡ false }
    ensures { IfOk result (CanBeAsked board.now.state) }
{
    let tried = candidates(alloc, board, conflict)?;
    let mut moves = Vec::with_capacity(alloc, tried.len())?;
    'moves: for mv in &tried {
        if can_make(board, mv) {
            moves.push(*mv)?;
        }
    }
    Ok(Question { moves })
}

// A question for each conflict that stands.
fn questions_of(alloc: Global, board: &Board) -> Result<Vec<Question>, AllocError>
    requires { board.now.spoiled ≡ false }
    ensures { IfOk result (λ all. All (CanBeAsked board.now.state) all.items) }
{
    let mut all = Vec::new(alloc);
    'conflicts: for conflict in board.conflicts().iter() {
        all.push(question_of(alloc, board, conflict)?)?;
    }
    Ok(all)
}

fn ask_each(alloc: Global, board: &Board, questions: &[Question]) -> Result<(), AllocError>
    requires unspoiled { board.now.spoiled ≡ false }
    requires next { board.now.state.next_id ≤ 3999999000 }
    requires allowed { All (CanBeAsked board.now.state) questions.now }
{
    for question in questions {
        least_of_each(alloc, board, &question.moves)?;
    }
    Ok(())
}

// How many nanoseconds of the processor it took to ask all questions so many times.
fn measure(
    rt: &impl CpuClock,
    alloc: Global,
    board: &Board,
    questions: &[Question],
    rounds: u32,
) -> Result<u128>
    requires unspoiled { board.now.spoiled ≡ false }
    requires next { board.now.state.next_id ≤ 3999999000 }
    requires allowed { All (CanBeAsked board.now.state) questions.now }
{
    let start = rt.thread_cpu_time()?;
    for _ in 0..rounds {
        ask_each(alloc, board, questions)?;
    }
    let end = rt.thread_cpu_time()?;
    Ok(end.saturating_sub(start).as_nanos())
}

// Asks a question, and puts its answers behind the others.
fn add_answers(
    alloc: Global,
    board: &Board,
    question: &Question,
    answers: &mut Vec<Answer>,
) -> Result<(), AllocError>
    requires unspoiled { board.now.spoiled ≡ false }
    requires next { board.now.state.next_id ≤ 3999999000 }
    requires allowed { CanBeAsked board.now.state question.now }
{
    let told = least_of_each(alloc, board, &question.moves)?;
    for (mv, least) in question.moves.iter().zip(told.iter()) {
        answers.push(Answer {
            mv: *mv,
            least: *least,
        })?;
    }
    Ok(())
}

fn answers_to(
    alloc: Global,
    board: &Board,
    questions: &[Question],
) -> Result<Vec<Answer>, AllocError>
    requires unspoiled { board.now.spoiled ≡ false }
    requires next { board.now.state.next_id ≤ 3999999000 }
    requires allowed { All (CanBeAsked board.now.state) questions.now }
{
    let mut answers = Vec::new(alloc);
    for question in questions {
        add_answers(alloc, board, question, &mut answers)?;
    }
    Ok(answers)
}

// Asks each of these questions so many times. Answers how many conflicts stand, what was found of the answers, and how many nanoseconds
// of the processor each of them took.
fn found_of(
    rt: &impl CpuClock,
    alloc: Global,
    board: &mut Board,
    questions: &[Question],
    rounds: u32,
) -> Result<Found>
    requires unspoiled { board.old.spoiled ≡ false }
    requires next { board.old.state.next_id ≤ 3999999000 }
    requires allowed { All (CanBeAsked board.old.state) questions.now }
{
    let nanos = measure(rt, alloc, board, questions, rounds)?;
    let answers = answers_to(alloc, board, questions)?;
    let tally = tally_of(alloc, board, &answers)?;
    let count = tally.asked.saturating_mul(rounds).max(1);
    Ok(Found {
        conflicts: questions.len(),
        tally,
        nanos: nanos / u128::from(count),
    })
}

// Asks so many times about the moves that may repair the board.
fn ask(rt: &impl CpuClock, alloc: Global, board: &mut Board, rounds: u32) -> Result<Found> {
    if board.spoiled() || 3_999_999_000 < board.next_id() {
        bail!("the board may not be asked");
    }
    let questions = questions_of(alloc, board)?;
    found_of(rt, alloc, board, &questions, rounds)
}

fn show(rt: &impl Print, live: u32, found: Found, is_timed: bool) -> Result<()> {
    let Found {
        conflicts,
        tally,
        nanos,
    } = found;
    let Tally {
        asked,
        too_high,
        exact,
    } = tally;
    let word = if too_high == 0 { "none" } else { "SOME" };
    rt.println(format_args!(
        "question: {live} activities, {conflicts} conflicts, {asked} moves that may repair one, {word} leaves fewer than was told"
    ))?;
    if is_timed {
        rt.println(format_args!(
            "question: {nanos} ns for each move, {exact} answers are exactly what the move leaves"
        ))?;
    }
    Ok(())
}

/// Asks so many times about the moves that may repair a board with so many groups of eight. Says how many moves these are, whether the
/// answers are right and, if asked, what an answer cost.
pub fn run(
    rt: &(impl Print + CpuClock),
    alloc: Global,
    count: u32,
    rounds: u32,
    is_timed: bool,
) -> Result<()>
    requires { count ≤ 1000 }
{
    let (mut board, _) = filled(alloc, count)?;
    let found = ask(rt, alloc, &mut board, rounds)?;
    show(rt, board.plan().len(), found, is_timed)
}
