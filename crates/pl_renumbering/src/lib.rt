//! What is wrong with a plan, and what moves make of it, does not depend on the ids of its activities, but on their order alone.
#![tactic(auto)]

mod laws;

pub use laws::{
    laws_of_candidates, laws_of_conflicts, laws_of_ids, laws_of_moves, laws_of_normal_forms,
    laws_of_trees, laws_of_values,
};
