//! What callers know of the memory that they lend to a draft.
ghost use Rattle.std.specs.Prelude.{◌≡◌, [], ◌∷◌, length, pos, Some, None, MatchResult};
ghost use Rattle.drafts.specs.Calls.{opening_of, Event, Set, Status};
ghost use Rattle.drafts.specs.Writes.{started, ended};
ghost use Rattle.drafts.specs.Memory.{start_fault, past};

use blocks::sdk_span::SdkSpan;
use drafts::draft::{Draft, StartRefused};
use drafts::start::Start;

/// A span with an event and an attribute of it, whatever the calls answer.
pub fn one_event<'a>(
    memory: &'a mut [u8],
    start: &Start<'_>,
    title: &[u8],
    key: &[u8],
    value: &[u8],
) -> Result<SdkSpan<'a>, StartRefused<'a>>
    ensures { MatchResult result (λ s. (start_fault (length memory.old) (opening_of start.now) ≡ None) × (s.block.now ≡ ended (past (started (length memory.old) (opening_of start.now)) (Event title.now (pos 15) ∷ Set 4 key.now 3 value.now ∷ Status 1 [] ∷ [])) (pos 20))) (λ e. (start_fault (length memory.old) (opening_of start.now) ≡ Some e.fault) × (e.memory.now ≡ memory.old)) }
{
    match Draft::start(memory, start) {
        Ok(draft) => {
            let mut draft = draft;
            let _ = draft.event(title, 15);
            let _ = draft.set(4, key, 3, value);
            let _ = draft.status(1, b"");
            Ok(draft.end(20))
        }
        Err(refused) => Err(refused),
    }
}
