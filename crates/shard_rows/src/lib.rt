//! The rows of shard replicas keep the invariant: what they have of the order stays, and each answers only what it has.
//!
//! A law, and no code. `proofs/Stepping.antt` says what a step of a replica has to show, `proofs/Deciding.antt` what one has
//! to show that keeps its view and its places, `proofs/Adding.antt` one that adds to its order, `proofs/Retaking.antt` one
//! that takes a view, and `proofs/Joining.antt` how parts of a row make up the row. `proofs/Settling.antt` and
//! `proofs/Pushing.antt` are the parts that rows share; a file an input follows, named by it.
#![tactic(auto)]

mod rows;

pub use rows::shard_rows_are_good;
