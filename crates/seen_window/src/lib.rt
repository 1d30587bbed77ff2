//! Which identities of each client are known, in so many bits a client, whatever came before.
//!
//! A window keeps for each client the greatest number that was marked and a bit for each of the
//! numbers up to it, 256 or 4,096 of them. A number below those counts as seen. Contracts see in a
//! window its image, the marks of each client. The calls that look and mark take no memory and
//! cannot fail.
#![tactic(auto)]

mod bits;
mod client;
mod laws;
mod wider;
mod window;

pub use laws::{marks_add_up, read_back, widening_keeps_seen};
pub use wider::widen;
pub use window::SeenWindow;
