//! What two spans differ in, counted by part.
ghost use Rattle.std.specs.Prelude.{◌≡◌};
ghost use Rattle.conversion.specs.View.{shown};
ghost use Rattle.conversion_sides.specs.Compared.{none_apart, agrees, compared, AgreesExactly};

use crate::entries::{Apart, Part};
use crate::fields::fields_apart;
use crate::owners::owners_apart;
use blocks::lists::Owner;
use conversion::dd_span::DdSpan;

/// How many values two spans differ in. What stands in one span alone counts once, and so does a link or an event,
/// whatever of it differs. Meta and metrics are counted under the ten names and under all others apart.
#[derive(Clone, Copy, PartialEq, Eq, Debug)]
pub struct Compared {
    pub fields: usize,
    pub meta: Apart,
    pub metrics: Apart,
    pub links: Apart,
    pub events: Apart,
    pub meta_left_out: Apart,
    pub metrics_left_out: Apart,
}

impl Apart {
    /// Whether there is nothing that differs.
    pub fn is_none(self) -> bool
        ensures { result ≡ none_apart self }
    {
        self.differ == 0 && (self.only_left == 0 && self.only_right == 0)
    }
}

impl Compared {
    /// Whether the spans agree: nothing differs but under the ten names.
    pub fn agrees(self) -> bool
        ensures { result ≡ agrees self }
    {
        self.fields == 0
            && (self.meta.is_none()
                && (self.metrics.is_none() && (self.links.is_none() && self.events.is_none())))
    }
}

/// Compares two spans. Of spans in which no key stands twice, as in every accepted conversion, they agree by these counts
/// exactly where they agree by the law of conversions.
pub fn compare(a: &DdSpan<'_, '_, '_>, b: &DdSpan<'_, '_, '_>) -> Compared
    ensures counts { result ≡ compared (shown a.now) (shown b.now) }
    ensures agree { AgreesExactly result (shown a.now) (shown b.now) }
{
    Compared {
        fields: fields_apart(a, b),
        meta: Part::Meta.apart(a, b, false),
        metrics: Part::Metrics.apart(a, b, false),
        links: owners_apart(a, b, Owner::Link),
        events: owners_apart(a, b, Owner::Event),
        meta_left_out: Part::Meta.apart(a, b, true),
        metrics_left_out: Part::Metrics.apart(a, b, true),
    }
}
