//! Tests of journals, and of the plan whose entries they hold: lines, verdicts, what several callers do call by call.
#![tactic(auto)]

#[cfg(test)]
mod asserting;
#[cfg(test)]
mod crew;
#[cfg(test)]
mod journals;
#[cfg(test)]
mod plan;
#[cfg(test)]
mod rows;
#[cfg(test)]
mod worked;
