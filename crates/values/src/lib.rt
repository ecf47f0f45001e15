//! Values of attributes: their eight kinds, the check of their bytes, and what each shows.
#![tactic(auto)]

pub mod check;
pub mod doubles;
pub mod elements;
pub mod kinds;
pub mod laws;
pub mod show;
pub mod utf8;
pub mod value;
