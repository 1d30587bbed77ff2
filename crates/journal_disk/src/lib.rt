//! A disk with one file, for what should outlive its machine.
//!
//! A [`Disk`] says what its calls do, and what a crash may leave at each moment. [`MemDisk`] is one in
//! memory: its calls can be made to fail, and when its power goes off it drops what wasn't synced.
//! [`put_behind`] and [`start_over`] change a file so that a crash at any moment does no harm.
#![tactic(auto)]

mod disk;
mod mem_disk;
mod meter;
mod past;
mod sequences;

pub use disk::Disk;
pub use mem_disk::MemDisk;
pub use sequences::{put_behind, start_over};
