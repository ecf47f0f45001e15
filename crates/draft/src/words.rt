//! The words that name lists, kinds of spans and statuses.
ghost use Rattle.std.specs.Prelude.{◌≡◌};
ghost use Rattle.blocks.specs.Names.{kind_name, status_name};
ghost use Rattle.draft.specs.Words.{word_of_list, list_in, ListsReadBack, span_kind_in, KindsReadBack, status_in, StatusesReadBack};

use blocks::lists::List;
use blocks::span_kind::{SpanKind, StatusCode};

const LISTS: [List; 7] = [
    List::Span,
    List::Resource,
    List::Scope,
    List::Event,
    List::EventAttribute,
    List::Link,
    List::LinkAttribute,
];

const SPAN_KINDS: [SpanKind; 5] = [
    SpanKind::Internal,
    SpanKind::Server,
    SpanKind::Client,
    SpanKind::Producer,
    SpanKind::Consumer,
];

const STATUSES: [StatusCode; 3] = [StatusCode::Unset, StatusCode::Ok, StatusCode::Error];

/// The word of a list. What is printed of a list may be two words.
fn list_word(list: List) -> &'static str
    ensures { result.now ≡ word_of_list list }
{
    match list {
        List::Span => "span",
        List::Resource => "resource",
        List::Scope => "scope",
        List::Event => "event",
        List::EventAttribute => "event-attribute",
        List::Link => "link",
        List::LinkAttribute => "link-attribute",
    }
}

/// The list that a word names; the word of each list is read as that list.
pub fn list_named(word: &[u8]) -> Option<List>
    ensures value { result ≡ list_in word.now }
    ensures back { ListsReadBack }
{
    LISTS
        .iter()
        .find(|list| list_word(**list).as_bytes() == word)
        .copied()
}

fn span_kind_word(kind: SpanKind) -> &'static str
    ensures { result.now ≡ kind_name kind }
{
    match kind {
        SpanKind::Internal => "internal",
        SpanKind::Server => "server",
        SpanKind::Client => "client",
        SpanKind::Producer => "producer",
        SpanKind::Consumer => "consumer",
    }
}

/// The kind of span that a word names; the word of each kind is read as that kind.
pub fn span_kind_named(word: &[u8]) -> Option<SpanKind>
    ensures value { result ≡ span_kind_in word.now }
    ensures back { KindsReadBack }
{
    SPAN_KINDS
        .iter()
        .find(|kind| span_kind_word(**kind).as_bytes() == word)
        .copied()
}

fn status_word(status: StatusCode) -> &'static str
    ensures { result.now ≡ status_name status }
{
    match status {
        StatusCode::Unset => "unset",
        StatusCode::Ok => "ok",
        StatusCode::Error => "error",
    }
}

/// The status that a word names; the word of each status is read as that status.
pub fn status_named(word: &[u8]) -> Option<StatusCode>
    ensures value { result ≡ status_in word.now }
    ensures back { StatusesReadBack }
{
    STATUSES
        .iter()
        .find(|status| status_word(**status).as_bytes() == word)
        .copied()
}
