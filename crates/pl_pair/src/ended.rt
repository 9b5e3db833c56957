use pl_machine::Machine;
use pl_marks::Mark;

/// What a run that came to its end hands back: the machine, and the mark of each entry that it had not when it was handed in.
#[derive(Drop)]
pub struct Ended {
    pub machine: Machine,
    pub marks: Vec<Mark>,
}
