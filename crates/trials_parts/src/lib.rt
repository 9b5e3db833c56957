//! Tests of the parts: lists, lines, tokens, models, messages, plans, timelines.
#![tactic(auto)]

#[cfg(test)]
mod asserting;
#[cfg(test)]
mod basics;
#[cfg(test)]
mod copies;
#[cfg(test)]
mod model;
#[cfg(test)]
mod reading;
#[cfg(test)]
mod timelines;
