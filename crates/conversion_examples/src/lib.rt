//! Examples of conversions: what a caller knows, each limit, what is kept in order, and pairs of spans that agree or not.
#![tactic(auto)]

#[cfg(test)]
mod agreement;
pub mod callers;
pub mod coded;
#[cfg(test)]
mod differences;
#[cfg(test)]
mod full;
#[cfg(test)]
mod limits;
#[cfg(test)]
mod links;
#[cfg(test)]
mod made;
#[cfg(test)]
mod parts;
