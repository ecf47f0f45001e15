//! Examples of readers: texts and numbers of a span in a block, the table of the later edition, the six fields, and
//! another reader.
#![tactic(auto)]

pub mod bare;
#[cfg(test)]
mod fields;
#[cfg(test)]
mod layers;
#[cfg(test)]
mod made;
#[cfg(test)]
mod spans;
