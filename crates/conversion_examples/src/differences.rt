//! What two Datadog spans differ in, counted.
use conversion::dd_span::DdSpan;
use conversion_sides::compared::compare;
use conversion_sides::entries::Apart;

fn total(apart: Apart) -> usize {
    apart
        .differ
        .saturating_add(apart.only_left)
        .saturating_add(apart.only_right)
}

/// How many values two spans differ in, but for those under the ten names.
pub fn differences(a: &DdSpan<'_, '_, '_>, b: &DdSpan<'_, '_, '_>) -> usize {
    let compared = compare(a, b);
    compared
        .fields
        .saturating_add(total(compared.meta))
        .saturating_add(total(compared.metrics))
        .saturating_add(total(compared.links))
        .saturating_add(total(compared.events))
}
