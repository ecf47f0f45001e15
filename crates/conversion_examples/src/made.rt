//! Drafts for the examples, and memory for their conversions.
use blocks::sdk_span::SdkSpan;
use conversion::convert::{ARENA_BYTES, META_ROWS};
use conversion::dd_span::DdSpan;
use conversion::pieces::MetaRow;
use drafts::call::Call;
use drafts::draft::Draft;
use drafts::start::Start;
use std::alloc::{AllocError, Global};

/// Memory for a conversion.
#[derive(Drop)]
pub struct Tables {
    pub meta: Vec<MetaRow>,
    pub arena: Vec<u8>,
}

impl Tables {
    /// A table with the fewest rows that a conversion takes, and the largest arena, all of it in use.
    pub fn new(heap: Global) -> Result<Tables, AllocError> {
        Ok(Tables {
            meta: vec![in heap; MetaRow::EMPTY; META_ROWS]?,
            arena: vec![in heap; 7u8; ARENA_BYTES]?,
        })
    }
}

/// A span with no texts and room for `rows` rows.
pub fn start_of(kind: u8, name: &[u8], rows: u16) -> Start<'_> {
    Start {
        rows,
        kind,
        trace_id_high: 1,
        trace_id_low: 2,
        span_id: 3,
        parent_id: 4,
        start_time: 1000,
        name,
        trace_state: b"",
        scope_name: b"",
        scope_version: b"",
    }
}

/// A string attribute of a list.
pub fn text<'t>(list: u8, key: &'t [u8], value: &'t [u8]) -> Call<'t> {
    Call::Set {
        list,
        key,
        kind: 3,
        value,
    }
}

/// An integer attribute of a list, in its bytes.
pub fn number<'t>(list: u8, key: &'t [u8], value: &'t [u8; 8]) -> Call<'t> {
    Call::Set {
        list,
        key,
        kind: 1,
        value,
    }
}

/// The span that a start and some calls record; none where the start is refused.
pub fn recorded<'a>(
    memory: &'a mut [u8],
    start: &Start<'_>,
    calls: &[Call<'_>],
) -> Option<SdkSpan<'a>> {
    match Draft::start(memory, start) {
        Ok(draft) => {
            let mut draft = draft;
            for call in calls {
                let _ = draft.apply(*call);
            }
            Some(draft.end(1500))
        }
        Err(_) => None,
    }
}

/// Whether a span has a text under a key.
pub fn has_text(span: &DdSpan<'_, '_, '_>, key: &[u8], text: &[u8]) -> bool {
    span.meta_under(key).is_ok_and(|found| found == text)
}

/// The block with the first `bb` in it as `aa`.
pub fn doubled(block: &mut [u8]) {
    if let Some(at) = block.windows(2).position(|pair| pair == b"bb".as_slice())
        && let Some(key) = block.get_mut(at..at + 2)
    {
        key.fill(b'a');
    }
}
