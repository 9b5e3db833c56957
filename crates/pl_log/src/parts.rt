use crate::form::Form;
use pl_entry::Entry;

/// Packed entries, part by part: each entry has a form, and by its form so many numbers, bytes, values, and whole entries.
#[derive(Drop)]
pub(crate) struct Parts {
    pub(crate) forms: Vec<Form>,
    pub(crate) numbers: Vec<u32>,
    pub(crate) bytes: Vec<u8>,
    pub(crate) values: Vec<Option<i64>>,
    pub(crate) whole: Vec<Entry>,
}
