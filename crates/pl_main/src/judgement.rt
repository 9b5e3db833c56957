/// How the reading of a journal ended: it is legal, it has a wrong entry, or the text before it is no model's.
#[derive(Clone, Copy, PartialEq, Eq)]
pub enum Judgement {
    Right,
    Wrong,
    Refused,
}
