//! The words for 'a growth was refused' and 'the start of a thread was refused'. Only a crate that lists this one can show them.
#![tactic(auto)]
