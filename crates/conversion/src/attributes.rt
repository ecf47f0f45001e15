//! Attributes that go into a span under their keys.
ghost use Rattle.std.specs.Prelude.{◌≡◌, ◌≤◌, ◌&&◌, IfSome, map, is_some};
ghost use Rattle.std.specs.Char.{to_ascii_lowercase};
ghost use Rattle.std.specs.Option.{option_map};
ghost use Rattle.std.specs.Str.{bytes_eq};
ghost use Rattle.lent_bytes.specs.Memory.{clip};
ghost use Rattle.values.specs.Format.{meant};
ghost use Rattle.values.specs.Shown.{datum_text};
ghost use Rattle.conversion.specs.Spans.{bytes_of, found};
ghost use Rattle.conversion.specs.Forms.{parsed_bool};
ghost use Rattle.conversion.specs.Steps.{put_given, is_empty, is_meta_key, says_something, put_sampling, put_text, put_number};
ghost use Rattle.conversion.specs.Pieces.{form_text, piece_end};
ghost use Rattle.conversion.specs.View.{view, piece_in, given_in, form_in, Does};

use crate::arena::ArenaFull;
use crate::constants::Constant;
use crate::forms::written;
use crate::pieces::{Form, Given, Piece, given_bytes, piece_bytes};
use crate::rows::first_text;
use crate::unfinished::{ONE, UnfinishedSpan};
use values::show::TEXT_BYTES;
use values::value::Value;

fn is(text: &[u8], word: &[u8]) -> bool
    ensures { result ≡ bytes_eq text.now word.now }
{
    text == word
}

pub(crate) fn is_empty(text: &[u8]) -> bool
    ensures { result ≡ is_empty text.now }
{
    text.is_empty()
}

/// A key that its own attribute has, which others do not replace.
fn is_meta_key(key: &[u8]) -> bool
    ensures { result ≡ is_meta_key key.now }
{
    is(key, b"env")
        || (is(key, b"version")
            || (is(key, b"http.status_code")
                || (is(key, b"error.message")
                    || (is(key, b"error.type") || is(key, b"error.stack")))))
}

/// Whether a text is a word, in any ASCII case.
pub(crate) fn is_word(text: &[u8], word: &[u8]) -> bool
    ensures { result ≡ bytes_eq (map to_ascii_lowercase text.now) (map to_ascii_lowercase word.now) }
{
    text.eq_ignore_ascii_case(word)
}

/// True and false in any ASCII case.
fn parsed_bool(text: &[u8]) -> Option<bool>
    ensures { result ≡ parsed_bool text.now }
{
    if is_word(text, b"true") {
        Some(true)
    } else if is_word(text, b"false") {
        Some(false)
    } else {
        None
    }
}

/// Whether a value's display text is empty.
#[inline(never)]
fn shows_nothing(value: &Value<'_>, quotes: bool) -> bool
    ensures { result ≡ is_empty (clip 4096 (datum_text quotes (meant value.now))) }
{
    let mut out = [0u8; TEXT_BYTES];
    is_empty(written(value, quotes, &mut out))
}

/// Whether a row's value has no text.
fn says_nothing(block: &[u8], form: Form<'_>) -> bool
    ensures { result ≡ is_empty (bytes_of (form_text block.now form.entry)) }
{
    match form {
        Form::Ready(given) => is_empty(given_bytes(block, given)),
        Form::Shown { value, quotes } => shows_nothing(&value, quotes),
    }
}

/// True and false in a value's display text.
#[inline(never)]
fn parsed_shown(value: &Value<'_>, quotes: bool) -> Option<bool>
    ensures { result ≡ parsed_bool (clip 4096 (datum_text quotes (meant value.now))) }
{
    let mut out = [0u8; TEXT_BYTES];
    parsed_bool(written(value, quotes, &mut out))
}

/// True and false in the text of a row's value.
fn parsed_form(block: &[u8], form: Form<'_>) -> Option<bool>
    ensures { result ≡ parsed_bool (bytes_of (form_text block.now form.entry)) }
{
    match form {
        Form::Ready(given) => parsed_bool(given_bytes(block, given)),
        Form::Shown { value, quotes } => parsed_shown(&value, quotes),
    }
}

impl<'b, 'm, 'a> UnfinishedSpan<'b, 'm, 'a> {
    /// The text under a key.
    pub(crate) fn found_meta(&self, key: &[u8]) -> Option<Piece>
        ensures text { option_map (piece_in self.now) result ≡ found key.now (view self.now).meta }
        ensures held { IfSome result (λ p. piece_end p ≤ self.now.used) }
    {
        let row = first_text(self.block, self.arena, &self.meta[..self.meta_len], key)?;
        Some(row.value)
    }

    /// Whether there is a text under a key that is not empty.
    fn says_something(&self, key: &[u8]) -> bool
        ensures { result ≡ says_something (found key.now (view self.now).meta) }
    {
        match self.found_meta(key) {
            Some(piece) => !piece_bytes(self.block, self.arena, piece).is_empty(),
            None => false,
        }
    }

    /// Whether there is a text under a key.
    pub(crate) fn has_meta(&self, key: &[u8]) -> bool
        ensures { result ≡ is_some (found key.now (view self.now).meta) }
    {
        self.find_meta(key).is_some()
    }

    /// Whether there is a number under a key.
    fn has_metric(&self, key: &[u8]) -> bool
        ensures { result ≡ is_some (found key.now (view self.now).metrics) }
    {
        self.find_metric(key).is_some()
    }

    /// Whether a text under a key is not replaced.
    fn keeps_text(&self, key: &[u8]) -> bool
        ensures { result ≡ (is_meta_key key.now && says_something (found key.now (view self.now).meta)) }
    {
        is_meta_key(key) && self.says_something(key)
    }

    /// Whether a number under a key is not replaced.
    fn keeps_number(&self, key: &[u8]) -> bool
        ensures { result ≡ (is_meta_key key.now && is_some (found key.now (view self.now).metrics)) }
    {
        is_meta_key(key) && self.has_metric(key)
    }

    /// A text under a key, unless it is empty.
    pub(crate) fn put_given(&mut self, key: Given<'_>, value: Form<'_>) -> Result<(), ArenaFull>
        ensures { Does result self.old self.new (λ n _. put_given n (given_in self.old key.entry) (form_in self.old value.entry)) }
    {
        if says_nothing(self.block, value) {
            return Ok(());
        }
        self.put_meta(key, value)
    }

    /// How often events are taken from the span.
    fn put_sampling(&mut self, said: Option<bool>) -> Result<(), ArenaFull>
        ensures { Does result self.old self.new (λ _ _. put_sampling said) }
    {
        match said {
            Some(true) => self.put_metric(Given::Quoted(Constant::SamplingRate), ONE),
            Some(false) => self.put_metric(Given::Quoted(Constant::SamplingRate), 0),
            None => Ok(()),
        }
    }

    /// An attribute as a text.
    pub(crate) fn put_text(&mut self, key: Given<'_>, value: Form<'_>) -> Result<(), ArenaFull>
        ensures { Does result self.old self.new (λ n _. put_text n (given_in self.old key.entry) (form_in self.old value.entry)) }
    {
        let name = given_bytes(self.block, key);
        if is_empty(name) {
            return Ok(());
        }
        if self.keeps_text(name) {
            return Ok(());
        }
        if is(name, b"analytics.event") {
            return self.put_sampling(parsed_form(self.block, value));
        }
        self.put_meta(key, value)
    }

    /// An attribute as a number.
    pub(crate) fn put_number(&mut self, key: Given<'_>, pattern: u64) -> Result<(), ArenaFull>
        ensures { Does result self.old self.new (λ _ _. put_number (given_in self.old key.entry) pattern) }
    {
        let name = given_bytes(self.block, key);
        if is_empty(name) {
            return Ok(());
        }
        if self.keeps_number(name) {
            return Ok(());
        }
        if is(name, b"sampling.priority") {
            return self.put_metric(Given::Quoted(Constant::SamplingPriority), pattern);
        }
        self.put_metric(key, pattern)
    }
}
