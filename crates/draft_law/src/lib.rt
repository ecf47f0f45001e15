//! The law of drafts.
#![tactic(auto)]

ghost use Rattle.draft_law.specs.Law.{HoldsWhatWasSaid, OkIsFinal, ErrorOkErrorIsOk};

/// What a draft holds when it has ended is what was said to it: for every start that is not refused, every
/// list of calls, refused ones among them, and every end time.
pub fn holds_what_was_said()
    ensures { HoldsWhatWasSaid }
{}

/// A span that is Ok stays so, with no description.
pub fn ok_is_final()
    ensures law { OkIsFinal }
    ensures example { ErrorOkErrorIsOk }
{}
