//! Examples of values, as tests: they are in a crate of their own since a crate with tests is proved
//! twice.
#![tactic(auto)]

#[cfg(test)]
mod checks;
#[cfg(test)]
mod numbers;
#[cfg(test)]
mod shows;
