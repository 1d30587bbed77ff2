//! The rules of the protocol as definitions: the state of each role, what each input does to it, and
//! what an event does to a whole world. `specs/` has one file for the state of a role, one for its
//! rules and one for each part that several of them share; the crates above are proved to follow
//! them. There is no code here but laws, which say of the definitions what they are meant to be.
#![tactic(auto)]

mod limits;
mod windows;

pub use limits::{
    FLIGHT_LIMIT, JOBS_LIMIT, MESSAGES_LIMIT, POSITION_LIMIT, RESENT_LIMIT, WEIGHT_LIMIT,
};
pub use windows::seen_after_marks;
