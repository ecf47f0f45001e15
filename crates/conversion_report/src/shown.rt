//! All that is printed of a Datadog span: its fields, its meta and metrics in their order, its links and events.
use crate::entries::{Meta, Metrics};
use crate::events::Events;
use crate::head::Head;
use crate::links::Links;
use conversion::dd_span::DdSpan;
use std::fmt;

#[derive(Clone, Copy)]
pub struct Shown<'s, 'b, 'm, 'a> {
    pub span: &'s DdSpan<'b, 'm, 'a>,
}

impl fmt::Display for Shown<'_, '_, '_, '_> {
    fn fmt<W: fmt::Write>(&self, f: &mut fmt::Formatter<W>) -> fmt::Result {
        let span = self.span;
        write!(f, "{}{}", Head { span }, Meta { span })?;
        write!(f, "{}{}", Metrics { span }, Links { span })?;
        write!(f, "{}", Events { span })
    }
}
