//! Drafts for the examples.
use drafts::call::Call;
use drafts::draft::Draft;
use drafts::refusal::answer_number;
use drafts::start::Start;
use lent_bytes::memory::part;

static LONG: [u8; 5000] = [b'a'; 5000];

static BROKEN: [u8; 5000] = [0xff; 5000];

/// A text of `n` bytes, at most 5,000.
pub fn text(n: usize) -> &'static [u8] {
    part(&LONG, 0, n)
}

/// `n` bytes that are not UTF-8, at most 5,000.
pub fn broken(n: usize) -> &'static [u8] {
    part(&BROKEN, 0, n)
}

/// A server span with no texts and room for `rows` rows.
pub fn start_of(rows: u16) -> Start<'static> {
    Start {
        rows,
        kind: 2,
        trace_id_high: 1,
        trace_id_low: 2,
        span_id: 3,
        parent_id: 0,
        start_time: 10,
        name: b"",
        trace_state: b"",
        scope_name: b"",
        scope_version: b"",
    }
}

/// A string attribute of a list.
pub fn set<'t>(list: u8, key: &'t [u8], value: &'t [u8]) -> Call<'t> {
    Call::Set {
        list,
        key,
        kind: 3,
        value,
    }
}

/// An event.
pub fn event(title: &[u8]) -> Call<'_> {
    Call::Event { title, time: 11 }
}

/// A link, with a trace state and a value of so many bytes.
pub fn link(trace_state: &[u8], length: usize) -> Call<'_> {
    Call::Link {
        trace_state,
        value: text(length),
    }
}

/// A status with its description.
pub fn status(code: u8, description: &[u8]) -> Call<'_> {
    Call::Status { code, description }
}

/// Another name.
pub fn rename(title: &[u8]) -> Call<'_> {
    Call::Rename { title }
}

/// The number of a start: 0, or that of its fault.
pub fn start_number(memory: &mut [u8], start: &Start<'_>) -> u8 {
    match Draft::start(memory, start) {
        Ok(draft) => {
            draft.discard();
            0
        }
        Err(refused) => u8::from(refused.fault),
    }
}

/// The number of the last of some calls, 255 where there is none or the start is refused.
pub fn last_number(memory: &mut [u8], start: &Start<'_>, calls: &[Call<'_>]) -> u8 {
    match Draft::start(memory, start) {
        Ok(draft) => {
            let mut draft = draft;
            let mut number = 255;
            for call in calls {
                number = answer_number(draft.apply(*call));
            }
            draft.discard();
            number
        }
        Err(_) => 255,
    }
}

/// Sets `n` attributes of a list, each with a key of its own; the number of the last answer, 255 for none.
pub fn fill_list(draft: &mut Draft<'_>, list: u8, n: u8) -> u8 {
    let mut number = 255;
    for i in 0..n {
        number = answer_number(draft.set(list, &[b'a' + i / 16, b'a' + i % 16], 3, b"v"));
    }
    number
}
