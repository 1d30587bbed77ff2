//! A seeded fault injector before a link: of the frames that it is handed it loses some, repeats some
//! and holds some back, by the words of a generator. It invents nothing. With the same seed, node and
//! frames it does the same again.
#![tactic(auto)]

mod chaos;
mod fate;
#[cfg(test)]
mod tests;

pub use chaos::Chaos;
