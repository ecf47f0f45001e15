//! Laws of the definitions that the contracts cite. Each function is there for its contract.
ghost use Rattle.values.specs.Encoding.{AcceptedExactly};
ghost use Rattle.values.specs.Laws.{CheckedIsNeverClipped, WorkedExamples};

/// A value that passed the check is shown whole: none of its three texts is clipped.
pub fn checked_is_never_clipped()
    ensures { CheckedIsNeverClipped }
{}

/// Examples of RFC 3629 and of binary64.
pub fn worked_examples()
    ensures { WorkedExamples }
{}

/// The form of values in the format's own words: bytes are read as a value under a kind's number
/// exactly where they are the value's encoding and the number is its kind's.
pub fn accepted_exactly()
    ensures { AcceptedExactly }
{}
