//! How close a list of whole-cent amounts lies to the exact shares of a pot, and what the closest lists are: the
//! mathematics behind the check of a division. There is no code here; `specs/` has the definitions and `proofs/` the theorem.
#![tactic(auto)]
