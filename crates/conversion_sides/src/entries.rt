//! The entries of meta and metrics of two spans beside each other, key by key. Entries are counted from 0.
ghost use Rattle.std.specs.Prelude.{◌≡◌};
ghost use Rattle.std.specs.Option.{option_map};
ghost use Rattle.conversion.specs.View.{shown};
ghost use Rattle.conversion_sides.specs.declared.entries.Part.TheVariants.{Meta, Metrics};
ghost use Rattle.conversion_sides.specs.Entries.{entries_in, entry_key, entry_standing, key_standing, entry_left_out, standing_so, entries_apart};

use crate::left_out::is_left_out;
use crate::standing::{Standing, number_standing, text_standing};
use conversion::dd_span::DdSpan;

/// A part of a span that has values under keys.
#[derive(Clone, Copy, PartialEq, Eq, Debug)]
pub enum Part {
    Meta,
    Metrics,
}

/// How many entries differ, and how many stand in one span alone.
#[derive(Clone, Copy, PartialEq, Eq, Debug)]
pub struct Apart {
    pub differ: usize,
    pub only_left: usize,
    pub only_right: usize,
}

impl Part {
    /// How many entries a span has in this part.
    pub fn count(self, span: &DdSpan<'_, '_, '_>) -> usize
        ensures { result ≡ entries_in self (shown span.now) }
    {
        match self {
            Part::Meta => span.meta_count(),
            Part::Metrics => span.metrics_count(),
        }
    }

    /// How the i-th entry of one span stands beside what the other has under its key.
    pub fn standing(self, a: &DdSpan<'_, '_, '_>, b: &DdSpan<'_, '_, '_>, i: usize) -> Standing
        ensures { result ≡ entry_standing self (shown a.now) (shown b.now) i }
    {
        match self {
            Part::Meta => meta_standing(a, b, i),
            Part::Metrics => metric_standing(a, b, i),
        }
    }

    /// How what one span has under a key stands beside what the other has under it.
    pub fn standing_under(
        self,
        a: &DdSpan<'_, '_, '_>,
        b: &DdSpan<'_, '_, '_>,
        key: &[u8],
    ) -> Standing
        ensures { result ≡ key_standing self (shown a.now) (shown b.now) key.now }
    {
        match self {
            Part::Meta => text_standing(a.meta_under(key).ok(), b.meta_under(key).ok()),
            Part::Metrics => number_standing(a.metric_under(key).ok(), b.metric_under(key).ok()),
        }
    }

    /// The key of the i-th entry of a span.
    pub fn key<'s>(self, span: &'s DdSpan<'_, '_, '_>, i: usize) -> Option<&'s [u8]>
        ensures { option_map (λ k. k.now) result ≡ entry_key self (shown span.now) i }
    {
        match self {
            Part::Meta => Some(span.meta(i).ok()?.key),
            Part::Metrics => Some(span.metric(i).ok()?.key),
        }
    }

    /// Whether the i-th entry of a span has one of the ten names.
    pub fn is_left_out(self, span: &DdSpan<'_, '_, '_>, i: usize) -> bool
        ensures { result ≡ entry_left_out self (shown span.now) i }
    {
        match self.key(span, i) {
            Some(key) => is_left_out(key),
            None => false,
        }
    }

    /// How many entries of one span stand so beside the other, under one of the ten names or under none of them.
    fn standing_so(
        self,
        a: &DdSpan<'_, '_, '_>,
        b: &DdSpan<'_, '_, '_>,
        standing: Standing,
        left_out: bool,
    ) -> usize
        ensures { result ≡ standing_so self (shown a.now) (shown b.now) standing left_out }
    {
        (0..self.count(a))
            .filter(|&i| {
                self.standing(a, b, i).is(standing) && self.is_left_out(a, i) == left_out
            })
            .count()
    }

    /// How many entries differ, under one of the ten names or under none of them.
    pub fn apart(self, a: &DdSpan<'_, '_, '_>, b: &DdSpan<'_, '_, '_>, left_out: bool) -> Apart
        ensures { result ≡ entries_apart self (shown a.now) (shown b.now) left_out }
    {
        Apart {
            differ: self.standing_so(a, b, Standing::Differs, left_out),
            only_left: self.standing_so(a, b, Standing::OnlyLeft, left_out),
            only_right: self.standing_so(b, a, Standing::OnlyLeft, left_out),
        }
    }
}

/// How the i-th text of one span stands beside the one that the other has under its key.
fn meta_standing(a: &DdSpan<'_, '_, '_>, b: &DdSpan<'_, '_, '_>, i: usize) -> Standing
    ensures { result ≡ entry_standing Meta (shown a.now) (shown b.now) i }
{
    match a.meta(i) {
        Ok(entry) => text_standing(Some(entry.value), b.meta_under(entry.key).ok()),
        Err(_) => Standing::Same,
    }
}

/// How the i-th number of one span stands beside the one that the other has under its key.
fn metric_standing(a: &DdSpan<'_, '_, '_>, b: &DdSpan<'_, '_, '_>, i: usize) -> Standing
    ensures { result ≡ entry_standing Metrics (shown a.now) (shown b.now) i }
{
    match a.metric(i) {
        Ok(entry) => number_standing(Some(entry.pattern), b.metric_under(entry.key).ok()),
        Err(_) => Standing::Same,
    }
}
