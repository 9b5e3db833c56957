//! How many conflicts a move leaves at least, known without making it.
#![tactic(auto)]

mod added;
mod alone;
mod asking;
mod bounding;
mod bounds;
mod bounds_with_states;
mod broken_musts;
mod choices;
mod choosing;
mod coming_musts;
mod crossing;
mod deciding;
mod elsewhere;
mod ending;
mod exchange;
mod further_looks;
mod known;
mod laws;
mod left_unmet;
mod link_conflicts;
mod looking;
mod marks;
mod merging;
mod newcomers;
mod orders;
mod outside;
mod passed_limits;
mod reading;
mod remainder;
mod reopening;
mod roots;
mod runs;
mod seen;
mod sorting;
mod standing;
mod steady;
mod stepwise;
mod subtrees;
mod tally;
mod ties;
mod tying;
mod unmet_musts;
mod unset;
mod untouched;
mod window;
mod worse;

pub use bounds::least_of_each;
pub use bounds_with_states::least_with_states;
pub use choices::least_of_choices;
pub use laws::{
    laws_of_counts, laws_of_differing, laws_of_moving, laws_of_samples, laws_of_starts,
    laws_of_the_steady, laws_of_values,
};
