/// A key of an index: keys stand in groups, in a group by number, and at one number by id.
#[derive(Clone, Copy, PartialEq, Eq, PartialOrd, Ord)]
pub(crate) struct Key {
    pub group: u32,
    pub number: u32,
    pub id: u32,
}
