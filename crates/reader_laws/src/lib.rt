//! Laws of readings and of what is derived from them. Each function is there for its contract.
#![tactic(auto)]

ghost use Rattle.readers.specs.Places.{NamedByKey};
ghost use Rattle.reader_laws.specs.Alike.{DeriveAlike};

use readers::otel_util::OtelSpan;

/// Two readers whose readings are equal, older names put as later, and neither of which uses a pair of
/// names doubly, give the same name, resource, type, service, environment and status code.
pub fn derive_alike<A: OtelSpan, B: OtelSpan>(a: &A, b: &B)
    ensures { DeriveAlike (A.OtelSpan.reading a.now) (B.OtelSpan.reading b.now) }
{}

/// The names by which the definitions call the places of the known keys are those of the keys.
pub fn named_by_key()
    ensures { NamedByKey }
{}
