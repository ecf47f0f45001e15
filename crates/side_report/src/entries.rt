//! The rows of meta and metrics, key by key: those of the left span, and behind them those that the right one has alone.
use crate::cells::{pattern_cell, push_key, text_cell};
use crate::mark::Mark;
use crate::row::Row;
use crate::sides::Printer;
use conversion::dd_span::DdSpan;
use conversion_sides::entries::Part;
use conversion_sides::left_out::is_left_out;
use conversion_sides::standing::Standing;
use std::alloc::Global;

/// The word by which a part is printed.
fn label(part: Part) -> &'static str {
    match part {
        Part::Meta => "meta",
        Part::Metrics => "metric",
    }
}

/// What a span has under a key.
fn cell(heap: Global, part: Part, span: &DdSpan<'_, '_, '_>, key: &[u8]) -> anyhow::Result<String> {
    match part {
        Part::Meta => match span.meta_under(key) {
            Ok(text) => text_cell(heap, text),
            Err(_) => Ok(String::new(heap)),
        },
        Part::Metrics => match span.metric_under(key) {
            Ok(pattern) => pattern_cell(heap, pattern),
            Err(_) => Ok(String::new(heap)),
        },
    }
}

/// Prints the entry under a key, of which is known how it stands.
fn print_entry(
    to: Printer<'_>,
    a: &DdSpan<'_, '_, '_>,
    b: &DdSpan<'_, '_, '_>,
    part: Part,
    standing: Standing,
    key: &[u8],
) -> anyhow::Result<()> {
    let mark = Mark::of(standing, is_left_out(key));
    if !to.shows(mark) {
        return Ok(());
    }
    let heap = to.heap();
    let mut name = String::from_str(heap, label(part))?;
    name.push(' ')?;
    push_key(heap, &mut name, key)?;
    let row = Row {
        mark,
        name,
        left: cell(heap, part, a, key)?,
        right: cell(heap, part, b, key)?,
    };
    to.print(&row)
}

/// Prints the entries of a part.
pub(crate) fn print_entries(
    to: Printer<'_>,
    a: &DdSpan<'_, '_, '_>,
    b: &DdSpan<'_, '_, '_>,
    part: Part,
) -> anyhow::Result<()> {
    for i in 0..part.count(a) {
        if let Some(key) = part.key(a, i) {
            print_entry(to, a, b, part, part.standing(a, b, i), key)?;
        }
    }
    for i in 0..part.count(b) {
        if let Some(key) = part.key(b, i) {
            if part.standing(b, a, i).is(Standing::OnlyLeft) {
                print_entry(to, a, b, part, Standing::OnlyRight, key)?;
            }
        }
    }
    Ok(())
}
