//! Worked cases of the crates below as tables: rows of the nodes, frames, histories and what the world makes
//! of some traces. What each crate's clauses say is proved there; this is what a reader can follow by hand.
//!
//! A crate with tests is proved twice, so those of the long crates stand here by themselves.
#![tactic(auto)]

#[cfg(test)]
mod appends;
#[cfg(test)]
mod boards;
#[cfg(test)]
mod frames;
#[cfg(test)]
mod histories;
#[cfg(test)]
mod loads;
#[cfg(test)]
mod outboxes;
#[cfg(test)]
mod sequencing;
#[cfg(test)]
mod shards;
#[cfg(test)]
mod stores;
#[cfg(test)]
mod texts;
#[cfg(test)]
mod views;
#[cfg(test)]
mod worlds;
