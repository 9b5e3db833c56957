use pl_entry::Entry;
use pl_marks::Author;
use pl_model::Model;

/// What a history under the lock holds. No value of it is made: it stands in contracts and proofs alone.
pub enum Noted {
    /// The open entry, with the model and with how many entries were handed in.
    Opened(Model, u32, Entry),
    /// A later entry, and who made it, if it was not handed in.
    Made(Option<Author>, Entry),
    /// The plan was stopped, and who stopped it: no event is made from here on.
    Stopped(Author),
}
