//! Tests of the program through its top call: runs by one thread and by several, reports, the command line.
#![tactic(auto)]

#[cfg(test)]
mod asserting;
#[cfg(test)]
mod breaking;
#[cfg(test)]
mod crew;
#[cfg(test)]
mod flags;
#[cfg(test)]
mod pair;
#[cfg(test)]
mod program;
#[cfg(test)]
mod running;
#[cfg(test)]
mod tables;
#[cfg(test)]
mod worked;
