//! Examples of blocks, opened and refused at each limit.
#![tactic(auto)]

#[cfg(test)]
mod fields;
#[cfg(test)]
mod frames;
#[cfg(test)]
mod items;
#[cfg(test)]
mod limits;
#[cfg(test)]
mod made;
#[cfg(test)]
mod order;
#[cfg(test)]
mod questions;
#[cfg(test)]
mod rows;
#[cfg(test)]
mod texts;
