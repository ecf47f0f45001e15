//! Values under keys, inserted one after another: in place where the key stands, and else at the end. The
//! definitions are in specs/, and the lemma over any keys and values in proofs/.
#![tactic(auto)]

ghost use Rattle.keyed.specs.Keyed.{InsertedInOrder};

/// Insertions one after another leave each key once, in the order of first appearance, with its last value.
pub fn inserted_in_order()
    ensures { InsertedInOrder }
{}
