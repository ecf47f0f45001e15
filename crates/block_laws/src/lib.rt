//! What holds of the definitions of blocks: each attribute of an event or a link stands under exactly one, and
//! what a write leaves of a block's facts.
#![tactic(auto)]

pub mod laws;
