//! Lists: what stands in them, how often, what is found and changed in them, with the lemmas of these
//! that the proofs above share.
#![tactic(auto)]
