//! The top call: the words, the model's text, the messages, and the journal.
#![tactic(auto)]

mod ahead;
mod answers;
mod arguments;
mod check;
mod command;
mod demo;
mod foreword;
mod forewords;
mod form;
mod journal_text;
mod journals;
mod judgement;
mod judging;
mod laws;
mod logs;
mod number;
mod outcome;
mod paired;
mod planner;
mod play;
mod sharing;
mod told;
mod top;
mod whole;
mod words;

pub use ahead::{look_ahead, read_ahead, run_ahead};
pub use arguments::{NO_MEMORY, words_of};
pub use command::{Ahead, Command, Task};
pub use laws::statuses_are_told_apart;
pub use sharing::shared_types;
pub use top::{run, run_solo};
pub use words::read_words;
