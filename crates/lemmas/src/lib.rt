//! Lemmas on lists, options and entries that std doesn't have, each stated once. They are in `proofs`.
#![tactic(auto)]
