//! Under which key an attribute goes to Datadog.
ghost use Rattle.std.specs.Prelude.{◌≡◌};
ghost use Rattle.std.specs.Option.{option_map};
ghost use Rattle.readers.specs.Tables.{entry_for};
ghost use Rattle.readers.specs.DatadogKeys.{http_names, http_name_at, begins, is_convention_key, plain_key, datadog_key, key_prefix, key_name, key_of};

use crate::tables::{Entry, find, place_in, text_at};
use lent_bytes::memory::after;
use lent_bytes::tables::index_of;
use names::semconv;

/// The names that HTTP attributes have at Datadog.
const HTTP_NAMES: [Entry; 11] = [
    Entry {
        from: semconv::CLIENT_ADDRESS,
        to: b"http.client_ip",
    },
    Entry {
        from: semconv::HTTP_RESPONSE_BODY_SIZE,
        to: b"http.response.content_length",
    },
    Entry {
        from: semconv::HTTP_RESPONSE_STATUS_CODE,
        to: b"http.status_code",
    },
    Entry {
        from: semconv::HTTP_REQUEST_BODY_SIZE,
        to: b"http.request.content_length",
    },
    Entry {
        from: b"http.request.header.referrer",
        to: b"http.referrer",
    },
    Entry {
        from: semconv::HTTP_REQUEST_METHOD,
        to: b"http.method",
    },
    Entry {
        from: semconv::HTTP_ROUTE,
        to: b"http.route",
    },
    Entry {
        from: semconv::NETWORK_PROTOCOL_VERSION,
        to: b"http.version",
    },
    Entry {
        from: semconv::SERVER_ADDRESS,
        to: b"http.server_name",
    },
    Entry {
        from: semconv::URL_FULL,
        to: b"http.url",
    },
    Entry {
        from: semconv::USER_AGENT_ORIGINAL,
        to: b"http.useragent",
    },
];

/// The keys that are read for fields of their own.
const CONVENTION_KEYS: [&[u8]; 4] = [
    b"service.name",
    b"operation.name",
    b"resource.name",
    b"span.type",
];

/// The name that an HTTP attribute has at Datadog.
pub fn http_mappings(k: &[u8]) -> Option<&'static [u8]>
    ensures { option_map (λ x. x.now) result ≡ entry_for k.now http_names }
{
    find(&HTTP_NAMES, k)
}

/// The place of that name among all of them.
pub fn http_place(k: &[u8]) -> Option<usize>
    ensures { option_map http_name_at result ≡ entry_for k.now http_names }
{
    place_in(&HTTP_NAMES, k)
}

/// The name at a place, the empty text past the last.
pub fn http_name(i: usize) -> &'static [u8]
    ensures { result.now ≡ http_name_at i }
{
    text_at(&HTTP_NAMES, i)
}

fn starts(k: &[u8], prefix: &[u8]) -> bool
    ensures { result ≡ begins prefix.now k.now }
{
    k.starts_with(prefix)
}

/// Whether a key is read for a field of its own, so that it goes under no key.
pub fn is_datadog_convention_key(k: &[u8]) -> bool
    ensures { result ≡ is_convention_key k.now }
{
    index_of(&CONVENTION_KEYS, k).is_some() || starts(k, b"datadog.")
}

/// The key under which an attribute goes to Datadog. That there is none is one of four answers: an `Option` around the
/// other three would be no plainer.
#[derive(Clone, Copy)]
pub enum DdKey<'a> {
    /// Another name.
    Mapped(&'static [u8]),
    /// The request header with this name.
    Header(&'a [u8]),
    /// None.
    Dropped,
    /// Its own.
    Kept(&'a [u8]),
}

/// The key of an attribute that has no other name.
pub fn plain_key(k: &[u8]) -> DdKey<'_>
    ensures { key_of result ≡ plain_key k.now }
{
    if starts(k, b"http.request.header.") {
        DdKey::Header(after(k, 20))
    } else if is_datadog_convention_key(k) {
        DdKey::Dropped
    } else {
        DdKey::Kept(k)
    }
}

/// The key under which the attribute `k` goes to Datadog.
pub fn get_dd_key_for_otlp_attribute(k: &[u8]) -> DdKey<'_>
    ensures { key_of result ≡ datadog_key k.now }
{
    match http_mappings(k) {
        Some(name) => DdKey::Mapped(name),
        None => plain_key(k),
    }
}

impl<'a> DdKey<'a> {
    /// What stands before `name` in the key's text: something before a header's alone.
    pub fn prefix(&self) -> &'static [u8]
        ensures { result.now ≡ key_prefix (key_of self.now) }
    {
        match self {
            DdKey::Header(_) => b"http.request.headers.",
            _ => b"",
        }
    }

    /// The key's text behind its prefix; empty where there is no key.
    pub fn name(&self) -> &'a [u8]
        ensures { result.now ≡ key_name (key_of self.now) }
    {
        match self {
            // An arm each: one pattern for all is not covered, since the names have two lifetimes.
            DdKey::Mapped(name) => *name,
            DdKey::Header(name) => *name,
            DdKey::Dropped => b"",
            DdKey::Kept(name) => *name,
        }
    }
}
