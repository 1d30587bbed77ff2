//! Words on lists that proofs by induction go by, with lemmas on them: what stands in a list, what
//! holds of each member, what comes before what, and which list is a front of another.
//!
//! `specs/Lists.antt` has the words, `proofs/` the lemmas, one file a word. There is no code here and
//! nothing of logs, so that every theorem above may stand on it.
#![tactic(auto)]
