//! Worked examples of the rules: short runs whose outcome is computed from the definitions, and
//! single rules at chosen states. There is no code here; each theorem of `proofs/` is one example.
#![tactic(auto)]
