use crate::answer::{BadSet, BrokenMust};
use crate::musts::Musts;
use crate::present::Present;
use crate::sets::Sets;
use std::alloc::Global;

/// The sets and the musts that stand, and what was told of them at the present.
#[derive(Drop)]
pub(crate) struct Kept {
    pub(crate) alloc: Global,
    pub(crate) any: bool,
    pub(crate) steps: Vec<(u32, u32)>,
    pub(crate) present: Present,
    pub(crate) sets: Sets,
    pub(crate) musts: Musts,
    pub(crate) told: Told,
}

/// Where musts are broken, the spans of each must behind those of the one before it, and the steps that are not
/// allowed.
#[derive(Drop)]
pub(crate) struct Told {
    pub(crate) broken: Vec<BrokenMust>,
    pub(crate) bad: Vec<BadSet>,
}
