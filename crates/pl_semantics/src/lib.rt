//! What a plan stands for at a moment, what is wrong with it, and which repairs there are, by definition.
#![tactic(auto)]

mod demand;
mod laws;
mod plan_state;
mod reading;
mod refusal;
mod shared_model;
mod sharing;
mod slots;

pub use demand::{Asked, Demand};
pub use laws::{
    laws_of_candidates, laws_of_conflicts, laws_of_grants, laws_of_measured_ends, laws_of_parts,
    laws_of_refusals, laws_of_spread, laws_of_subjects, laws_of_telemetry,
};
pub use plan_state::PlanState;
pub use refusal::Refusal;
pub use shared_model::SharedModel;
pub use sharing::shared_types;
