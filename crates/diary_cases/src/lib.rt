//! Worked cases of `node_diary` and `diary_merge`: the clock and the limits of a diary, a worked merge, and runs of a
//! world that are told again by the diaries of its nodes.
//!
//! A crate with tests is proved twice, so those of diaries stand here by themselves.
#![tactic(auto)]

#[cfg(test)]
mod limits;
#[cfg(test)]
mod merges;
#[cfg(test)]
mod net;
#[cfg(test)]
mod runs;
#[cfg(test)]
mod told;
