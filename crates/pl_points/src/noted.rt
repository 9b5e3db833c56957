/// What a timeline notes of its reservations, for proofs alone: one came, or one went.
#[derive(Clone, Copy, PartialEq, Eq)]
pub enum Noted<T> {
    Came(T),
    Went(T),
}
