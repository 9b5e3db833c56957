//! What is read: the lines of an input one by one, the text of a model in front of them, and the messages behind it.
#![tactic(auto)]

mod found;
mod halt;
mod halting;
mod head;
mod inputs;
mod messages;
mod reads;
mod sharing;
mod words;

pub use found::Head;
pub use halt::Halt;
pub use halting::halt_of;
pub use head::read_head;
pub use inputs::line_in;
pub use messages::next_message;
pub use reads::next_line;
pub use sharing::shared_types;
pub use words::{is_begin_line, is_blank_line, is_line_of};
