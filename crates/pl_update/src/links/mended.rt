use pl_conflict::Conflict;

/// Conflicts that went, and conflicts that came. One that did both stands.
#[derive(Drop)]
pub struct Mended {
    pub went: Vec<Conflict>,
    pub came: Vec<Conflict>,
}
