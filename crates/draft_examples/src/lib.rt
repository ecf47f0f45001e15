//! Examples of drafts: each limit, the order of refusals, what is held, and what a caller knows.
#![tactic(auto)]

pub mod callers;
#[cfg(test)]
mod full;
#[cfg(test)]
mod held;
#[cfg(test)]
mod limits;
#[cfg(test)]
mod made;
#[cfg(test)]
mod order;
#[cfg(test)]
mod refused;
#[cfg(test)]
mod room;
#[cfg(test)]
mod starts;
