//! Message lines: goals, telemetry, the moment, measured ends, the withdrawal of what is committed and has not begun,
//! and the end. Lines of rates and of preferences are read by the same words, names and faults.
#![tactic(auto)]

mod fault;
mod forms;
mod goals;
mod message;
mod names;
mod presets;
mod reading;
mod sharing;
mod telemetry;
mod words;

pub use fault::ParseFault;
pub use message::Message;
pub use names::{kind_of, level_of};
pub use reading::read_message;
pub use sharing::shared_types;
pub use words::{name_of, number_of, says, tokens_of};
