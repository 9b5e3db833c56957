use crate::told::Told;

/// What stands between the line `begin` and a journal: what is to be told of the journal by it, or the line that refuses it.
#[derive(Drop)]
pub enum Foreword {
    Tells(Told),
    Refuses(Vec<u8>),
}
