//! Tests of the planner: boards, repairs, choosers, the machine, preferences.
#![tactic(auto)]

#[cfg(test)]
mod asserting;
#[cfg(test)]
mod board;
#[cfg(test)]
mod machine;
#[cfg(test)]
mod prefs;
#[cfg(test)]
mod reading;
