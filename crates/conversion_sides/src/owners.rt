//! The links and events of two spans beside each other, place by place, with their attributes. All are counted from 0.
ghost use Rattle.std.specs.Prelude.{◌≡◌};
ghost use Rattle.blocks.specs.declared.lists.Owner.TheVariants.{Event, Link};
ghost use Rattle.conversion.specs.View.{shown};
ghost use Rattle.conversion_sides.specs.Owners.{owners_in, attributes_in, head_standing, attribute_standing, attributes_same, owner_standing, owners_so, owners_apart, same_ids};

use crate::entries::Apart;
use crate::same_values::same_value_or_none;
use crate::standing::Standing;
use blocks::lists::Owner;
use blocks::row::LinkIds;
use conversion::dd_span::DdSpan;

/// How many events or links a span has.
pub fn owner_count(span: &DdSpan<'_, '_, '_>, owner: Owner) -> u16
    ensures { result ≡ owners_in owner (shown span.now) }
{
    match owner {
        Owner::Event => span.event_count(),
        Owner::Link => span.link_count(),
    }
}

/// How many attributes the n-th event or link has by key, none where there is no such one.
pub fn attribute_count(span: &DdSpan<'_, '_, '_>, owner: Owner, n: u16) -> u16
    ensures { result ≡ attributes_in owner (shown span.now) n }
{
    match owner {
        Owner::Event => span.event_attribute_count(n).unwrap_or(0),
        Owner::Link => span.link_attribute_count(n).unwrap_or(0),
    }
}

fn same_ids(a: LinkIds, b: LinkIds) -> bool
    ensures { result ≡ same_ids a b }
{
    a.trace_id_high == b.trace_id_high
        && (a.trace_id_low == b.trace_id_low && (a.span_id == b.span_id && a.flags == b.flags))
}

fn link_head_standing(a: &DdSpan<'_, '_, '_>, b: &DdSpan<'_, '_, '_>, n: u16) -> Standing
    ensures { result ≡ head_standing Link (shown a.now) (shown b.now) n }
{
    match (a.link(n), b.link(n)) {
        (Ok(x), Ok(y)) => {
            Standing::of_both(same_ids(x.ids, y.ids) && x.trace_state == y.trace_state)
        }
        (Ok(_), Err(_)) => Standing::OnlyLeft,
        (Err(_), Ok(_)) => Standing::OnlyRight,
        (Err(_), Err(_)) => Standing::Same,
    }
}

fn event_head_standing(a: &DdSpan<'_, '_, '_>, b: &DdSpan<'_, '_, '_>, n: u16) -> Standing
    ensures { result ≡ head_standing Event (shown a.now) (shown b.now) n }
{
    match (a.event(n), b.event(n)) {
        (Ok(x), Ok(y)) => Standing::of_both(x.time == y.time && x.name == y.name),
        (Ok(_), Err(_)) => Standing::OnlyLeft,
        (Err(_), Ok(_)) => Standing::OnlyRight,
        (Err(_), Err(_)) => Standing::Same,
    }
}

/// How the n-th event or link of one span stands beside that of the other, its attributes aside.
pub fn head_standing(
    a: &DdSpan<'_, '_, '_>,
    b: &DdSpan<'_, '_, '_>,
    owner: Owner,
    n: u16,
) -> Standing
    ensures { result ≡ head_standing owner (shown a.now) (shown b.now) n }
{
    match owner {
        Owner::Event => event_head_standing(a, b, n),
        Owner::Link => link_head_standing(a, b, n),
    }
}

fn link_attribute_standing(
    a: &DdSpan<'_, '_, '_>,
    b: &DdSpan<'_, '_, '_>,
    n: u16,
    i: u16,
) -> Standing
    ensures { result ≡ attribute_standing Link (shown a.now) (shown b.now) n i }
{
    match (a.link_attribute(n, i), b.link_attribute(n, i)) {
        (Ok(x), Ok(y)) => Standing::of_both(x.key == y.key && x.value == y.value),
        (Ok(_), Err(_)) => Standing::OnlyLeft,
        (Err(_), Ok(_)) => Standing::OnlyRight,
        (Err(_), Err(_)) => Standing::Same,
    }
}

fn event_attribute_standing(
    a: &DdSpan<'_, '_, '_>,
    b: &DdSpan<'_, '_, '_>,
    n: u16,
    i: u16,
) -> Standing
    ensures { result ≡ attribute_standing Event (shown a.now) (shown b.now) n i }
{
    match (a.event_attribute(n, i), b.event_attribute(n, i)) {
        (Ok(x), Ok(y)) => {
            Standing::of_both(x.key == y.key && same_value_or_none(x.value, y.value))
        }
        (Ok(_), Err(_)) => Standing::OnlyLeft,
        (Err(_), Ok(_)) => Standing::OnlyRight,
        (Err(_), Err(_)) => Standing::Same,
    }
}

/// How the i-th attribute of the n-th event or link of one span stands beside that of the other.
pub fn attribute_standing(
    a: &DdSpan<'_, '_, '_>,
    b: &DdSpan<'_, '_, '_>,
    owner: Owner,
    n: u16,
    i: u16,
) -> Standing
    ensures { result ≡ attribute_standing owner (shown a.now) (shown b.now) n i }
{
    match owner {
        Owner::Event => event_attribute_standing(a, b, n, i),
        Owner::Link => link_attribute_standing(a, b, n, i),
    }
}

/// Whether the n-th events or links have the same attributes.
fn attributes_same(a: &DdSpan<'_, '_, '_>, b: &DdSpan<'_, '_, '_>, owner: Owner, n: u16) -> bool
    ensures { result ≡ attributes_same owner (shown a.now) (shown b.now) n }
{
    let count = attribute_count(a, owner, n);
    count == attribute_count(b, owner, n)
        && (0..count).all(|i| attribute_standing(a, b, owner, n, i).is(Standing::Same))
}

/// How the n-th event or link of one span stands beside that of the other, with its attributes.
pub fn owner_standing(
    a: &DdSpan<'_, '_, '_>,
    b: &DdSpan<'_, '_, '_>,
    owner: Owner,
    n: u16,
) -> Standing
    ensures { result ≡ owner_standing owner (shown a.now) (shown b.now) n }
{
    head_standing(a, b, owner, n).and(attributes_same(a, b, owner, n))
}

/// How many events or links of one span stand so beside the other.
fn owners_so(
    a: &DdSpan<'_, '_, '_>,
    b: &DdSpan<'_, '_, '_>,
    owner: Owner,
    standing: Standing,
) -> usize
    ensures { result ≡ owners_so owner (shown a.now) (shown b.now) standing }
{
    (0..owner_count(a, owner))
        .filter(|&n| owner_standing(a, b, owner, n).is(standing))
        .count()
}

/// How many events or links differ.
pub fn owners_apart(a: &DdSpan<'_, '_, '_>, b: &DdSpan<'_, '_, '_>, owner: Owner) -> Apart
    ensures { result ≡ owners_apart owner (shown a.now) (shown b.now) }
{
    Apart {
        differ: owners_so(a, b, owner, Standing::Differs),
        only_left: owners_so(a, b, owner, Standing::OnlyLeft),
        only_right: owners_so(b, a, owner, Standing::OnlyLeft),
    }
}
