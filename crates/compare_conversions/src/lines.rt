//! A Datadog span as lines of words: its fields, its meta and metrics, its links and events with their attributes. What
//! stands under keys is sorted line by line, so that the order of insertion plays no part.
use crate::typed::Typed;
use conversion::dd_span::DdSpan;
use reading_report::token::Token;
use std::alloc::Global;

/// The fields, each in a line.
fn push_head(
    lines: &mut Vec<String>,
    span: &DdSpan<'_, '_, '_>,
    heap: Global,
) -> anyhow::Result<()> {
    lines.push(format!(in heap; "service {}", Token(span.service()))?)?;
    lines.push(format!(in heap; "name {}", Token(span.name()))?)?;
    lines.push(format!(in heap; "resource {}", Token(span.resource()))?)?;
    lines.push(format!(in heap; "type {}", Token(span.span_type()))?)?;
    lines.push(format!(in heap; "trace_id {}", span.trace_id())?)?;
    lines.push(format!(in heap; "span_id {}", span.span_id())?)?;
    lines.push(format!(in heap; "parent_id {}", span.parent_id())?)?;
    lines.push(format!(in heap; "start {}", span.start())?)?;
    lines.push(format!(in heap; "duration {}", span.duration())?)?;
    lines.push(format!(in heap; "error {}", span.error())?)?;
    Ok(())
}

/// Lines behind others, sorted among themselves.
fn append_sorted(lines: &mut Vec<String>, mut more: Vec<String>) -> anyhow::Result<()> {
    more.sort()?;
    for line in more {
        lines.push(line)?;
    }
    Ok(())
}

fn push_meta(
    lines: &mut Vec<String>,
    span: &DdSpan<'_, '_, '_>,
    heap: Global,
) -> anyhow::Result<()> {
    let mut more = Vec::new(heap);
    for i in 0..span.meta_count() {
        if let Ok(entry) = span.meta(i) {
            let key = Token(entry.key);
            let value = Token(entry.value);
            more.push(format!(in heap; "meta {key} {value}")?)?;
        }
    }
    append_sorted(lines, more)
}

fn push_metrics(
    lines: &mut Vec<String>,
    span: &DdSpan<'_, '_, '_>,
    heap: Global,
) -> anyhow::Result<()> {
    let mut more = Vec::new(heap);
    for i in 0..span.metrics_count() {
        if let Ok(entry) = span.metric(i) {
            let key = Token(entry.key);
            let pattern = entry.pattern;
            more.push(format!(in heap; "metric {key} {pattern:016x}")?)?;
        }
    }
    append_sorted(lines, more)
}

/// The n-th link, and below it its attributes.
fn push_link(
    lines: &mut Vec<String>,
    span: &DdSpan<'_, '_, '_>,
    n: u16,
    heap: Global,
) -> anyhow::Result<()> {
    let Ok(link) = span.link(n) else {
        return Ok(());
    };
    let low = link.ids.trace_id_low;
    let high = link.ids.trace_id_high;
    let id = link.ids.span_id;
    let flags = link.ids.flags;
    let state = Token(link.trace_state);
    lines.push(format!(in heap; "link {low} {high} {id} {flags} {state}")?)?;
    let mut more = Vec::new(heap);
    for i in 0..span.link_attribute_count(n).unwrap_or(0) {
        if let Ok(entry) = span.link_attribute(n, i) {
            let key = Token(entry.key);
            let value = Token(entry.value);
            more.push(format!(in heap; "link_attr {key} {value}")?)?;
        }
    }
    append_sorted(lines, more)
}

/// The n-th event, and below it its attributes.
fn push_event(
    lines: &mut Vec<String>,
    span: &DdSpan<'_, '_, '_>,
    n: u16,
    heap: Global,
) -> anyhow::Result<()> {
    let Ok(event) = span.event(n) else {
        return Ok(());
    };
    let time = event.time;
    let name = Token(event.name);
    lines.push(format!(in heap; "event {time} {name}")?)?;
    let mut more = Vec::new(heap);
    for i in 0..span.event_attribute_count(n).unwrap_or(0) {
        if let Ok(entry) = span.event_attribute(n, i) {
            let key = Token(entry.key);
            let value = Typed(entry.value);
            more.push(format!(in heap; "event_attr {key} {value}")?)?;
        }
    }
    append_sorted(lines, more)
}

/// All lines of a span.
pub fn lines_of(span: &DdSpan<'_, '_, '_>, heap: Global) -> anyhow::Result<Vec<String>> {
    let mut lines = Vec::new(heap);
    push_head(&mut lines, span, heap)?;
    push_meta(&mut lines, span, heap)?;
    push_metrics(&mut lines, span, heap)?;
    for n in 0..span.link_count() {
        push_link(&mut lines, span, n, heap)?;
    }
    for n in 0..span.event_count() {
        push_event(&mut lines, span, n, heap)?;
    }
    Ok(lines)
}
