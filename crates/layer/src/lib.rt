//! Readers over readers.
#![tactic(auto)]

pub mod later_edition;
pub mod layers;
