//! Worked cases of `shard_journal`: a worked file, torn files, and a crash at each device call of a run of keeps.
//!
//! A crate with tests is proved twice, so those of the journal stand here by themselves.
#![tactic(auto)]

#[cfg(test)]
mod crashes;
