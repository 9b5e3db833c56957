//! Tests of the top call and of the program's words: whole runs and demonstrations.

mod ahead;
mod checks;
mod demonstrations;
mod faults;
mod forecasts;
mod hostile;
mod improvements;
mod journals;
mod limits;
mod messages;
mod plans;
mod texts;
mod until_and_halt;
mod windows;
mod words;
