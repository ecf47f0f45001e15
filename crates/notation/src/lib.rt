//! What the programs' texts have in common: lines, words, hex digits, values as they are written, which kind
//! a word names, where a text comes from, and how a line's outcome is printed and counted.
#![tactic(auto)]

pub mod compared;
pub mod cut;
pub mod element;
pub mod fault;
pub mod hex;
pub mod kinds;
pub mod named;
pub mod quoted;
pub mod raw;
pub mod report;
pub mod source;
pub mod tally;
pub mod written;
