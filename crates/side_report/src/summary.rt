//! How many values differ, and in which of the ten names.
use crate::sides::Printer;
use conversion::dd_span::DdSpan;
use conversion_sides::compared::Compared;
use conversion_sides::entries::{Apart, Part};
use conversion_sides::left_out::LEFT_OUT;
use conversion_sides::standing::Standing;
use escape::Whole;
use std::alloc::Global;

/// How many there are of all three.
fn total(apart: Apart) -> usize {
    apart
        .differ
        .saturating_add(apart.only_left)
        .saturating_add(apart.only_right)
}

/// Whether two spans differ under a key, in meta or in metrics.
fn differ_under(a: &DdSpan<'_, '_, '_>, b: &DdSpan<'_, '_, '_>, key: &[u8]) -> bool {
    let meta = Part::Meta.standing_under(a, b, key);
    let metric = Part::Metrics.standing_under(a, b, key);
    !(meta.is(Standing::Same) && metric.is(Standing::Same))
}

/// Those of some names under which two spans differ, each behind a space.
fn names_apart(
    heap: Global,
    a: &DdSpan<'_, '_, '_>,
    b: &DdSpan<'_, '_, '_>,
    names: &[&[u8]],
) -> anyhow::Result<String> {
    let mut out = String::new(heap);
    for name in names {
        if differ_under(a, b, name) {
            write!(out, " {}", Whole(name))?;
        }
    }
    Ok(out)
}

/// Prints how many values differ, by part, and the names among the ten under which some do.
pub(crate) fn print_summary(
    to: Printer<'_>,
    a: &DdSpan<'_, '_, '_>,
    b: &DdSpan<'_, '_, '_>,
    compared: Compared,
) -> anyhow::Result<()> {
    let fields = compared.fields;
    let meta = total(compared.meta);
    let metrics = total(compared.metrics);
    let links = total(compared.links);
    let events = total(compared.events);
    let all = fields
        .saturating_add(meta)
        .saturating_add(metrics)
        .saturating_add(links)
        .saturating_add(events);
    let left_out = total(compared.meta_left_out).saturating_add(total(compared.metrics_left_out));
    let names = names_apart(to.heap(), a, b, &LEFT_OUT)?;
    let rt = to.rt;
    println!(rt;
        "differ {all}: fields {fields}, meta {meta}, metrics {metrics}, links {links}, events {events}"
    )?;
    println!(rt; "differ under the ten names {left_out}:{names}\n")?;
    Ok(())
}
