//! Worked runs of the top call over files and streams in memory: what no clause can say, that a run
//! with enough memory succeeds and prints what a person worked out.
#![tactic(auto)]

#[cfg(test)]
mod bounds;
#[cfg(test)]
mod demos;
#[cfg(test)]
mod limits;
#[cfg(test)]
mod listings;
#[cfg(test)]
mod pictures;
#[cfg(test)]
mod refusals;
#[cfg(test)]
mod runs;
