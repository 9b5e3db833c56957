use crate::role::Acted;
use pl_cand::Proposal;
use pl_machine::Machine;

/// What a planner saw: how many entries, and what its chooser proposes after them, if anything can be repaired there.
#[derive(Drop)]
pub struct Sight {
    pub seen: u32,
    pub proposal: Option<Proposal>,
    /// The machine on which the chooser was asked, to be asked on again.
    pub replica: Option<Machine>,
}

/// What came of a view.
#[derive(Drop)]
pub enum View {
    /// The act is over.
    Settled(Acted),
    /// The chooser was asked on a copy of the plan.
    Copy(Sight),
}
