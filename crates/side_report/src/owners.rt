//! The rows of links and events, place by place, each with its attributes below it.
use crate::cells::{push_key, push_text, push_value};
use crate::mark::Mark;
use crate::row::Row;
use crate::sides::Printer;
use blocks::lists::Owner;
use conversion::dd_span::DdSpan;
use conversion_sides::owners::{
    attribute_count, attribute_standing, head_standing, owner_count, owner_standing,
};
use std::alloc::Global;

fn label(owner: Owner) -> &'static str {
    match owner {
        Owner::Event => "event",
        Owner::Link => "link",
    }
}

/// When an event was and its name, or what a link points to: a trace id, which is as wide as a side, then a span id, flags and
/// the trace state.
fn head_cell(
    heap: Global,
    span: &DdSpan<'_, '_, '_>,
    owner: Owner,
    n: u16,
) -> anyhow::Result<String> {
    let mut out = String::new(heap);
    match owner {
        Owner::Event => {
            if let Ok(event) = span.event(n) {
                let time = event.time;
                write!(out, "{time} ")?;
                push_text(heap, &mut out, event.name)?;
            }
        }
        Owner::Link => {
            if let Ok(link) = span.link(n) {
                let high = link.ids.trace_id_high;
                let low = link.ids.trace_id_low;
                let to = link.ids.span_id;
                let flags = link.ids.flags;
                write!(out, "{high:016x}{low:016x}    {to:016x} flags {flags:02x} ")?;
                push_text(heap, &mut out, link.trace_state)?;
            }
        }
    }
    Ok(out)
}

/// The key and the value of an attribute.
fn attribute_cell(
    heap: Global,
    span: &DdSpan<'_, '_, '_>,
    owner: Owner,
    n: u16,
    i: u16,
) -> anyhow::Result<String> {
    let mut out = String::new(heap);
    match owner {
        Owner::Event => {
            if let Ok(entry) = span.event_attribute(n, i) {
                push_key(heap, &mut out, entry.key)?;
                out.push(' ')?;
                push_value(heap, &mut out, entry.value)?;
            }
        }
        Owner::Link => {
            if let Ok(entry) = span.link_attribute(n, i) {
                push_key(heap, &mut out, entry.key)?;
                out.push(' ')?;
                push_text(heap, &mut out, entry.value)?;
            }
        }
    }
    Ok(out)
}

fn print_attributes(
    to: Printer<'_>,
    a: &DdSpan<'_, '_, '_>,
    b: &DdSpan<'_, '_, '_>,
    owner: Owner,
    n: u16,
) -> anyhow::Result<()> {
    let heap = to.heap();
    let count = attribute_count(a, owner, n).max(attribute_count(b, owner, n));
    for i in 0..count {
        let mark = Mark::of(attribute_standing(a, b, owner, n, i), false);
        if to.shows(mark) {
            let row = Row {
                mark,
                name: format!(in heap; "  attribute {i}")?,
                left: attribute_cell(heap, a, owner, n, i)?,
                right: attribute_cell(heap, b, owner, n, i)?,
            };
            to.print(&row)?;
        }
    }
    Ok(())
}

/// Prints the links or the events. Of one with an attribute that differs its own row is printed too.
pub(crate) fn print_owners(
    to: Printer<'_>,
    a: &DdSpan<'_, '_, '_>,
    b: &DdSpan<'_, '_, '_>,
    owner: Owner,
) -> anyhow::Result<()> {
    let heap = to.heap();
    let label = label(owner);
    let count = owner_count(a, owner).max(owner_count(b, owner));
    for n in 0..count {
        if to.shows(Mark::of(owner_standing(a, b, owner, n), false)) {
            let row = Row {
                mark: Mark::of(head_standing(a, b, owner, n), false),
                name: format!(in heap; "{label} {n}")?,
                left: head_cell(heap, a, owner, n)?,
                right: head_cell(heap, b, owner, n)?,
            };
            to.print(&row)?;
        }
        print_attributes(to, a, b, owner, n)?;
    }
    Ok(())
}
