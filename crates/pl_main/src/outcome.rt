/// How a run ended: its input is answered, or its model's text is refused.
#[derive(Clone, Copy, PartialEq, Eq)]
pub enum Outcome {
    Done,
    Refused,
}
