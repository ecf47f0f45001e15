//! Names: the attribute keys that have a place of their own, the spellings of the conventions and of
//! the database systems, and lower case.
#![tactic(auto)]

pub mod attribute_indices;
pub mod attribute_keys;
pub mod case;
pub mod semconv;
pub mod semconv_shim;
