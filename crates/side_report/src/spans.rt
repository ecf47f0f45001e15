//! Two spans converted and printed beside each other.
ghost use Rattle.std.specs.Prelude.{IfOk};
ghost use Rattle.conversion.specs.View.{shown};
ghost use Rattle.side_report.specs.Outcomes.{TellsOf};

use crate::entries::print_entries;
use crate::fields::print_fields;
use crate::outcome::Outcome;
use crate::owners::print_owners;
use crate::sides::Printer;
use crate::summary::print_summary;
use blocks::lists::Owner;
use blocks::sdk_span::SdkSpan;
use conversion::convert::{ARENA_BYTES, META_ROWS, otel_span_to_dd_span};
use conversion::dd_span::DdSpan;
use conversion::faults::ConvertFault;
use conversion::pieces::MetaRow;
use conversion_sides::compared::compare;
use conversion_sides::entries::Part;
use readers::otel_util::OtelSpan;
use std::alloc::Global;

/// The memory that a conversion is lent.
#[derive(Drop)]
pub(crate) struct Tables {
    meta: Vec<MetaRow>,
    arena: Vec<u8>,
}

impl Tables {
    /// The fewest rows that a conversion takes, and the largest arena.
    pub(crate) fn new(heap: Global) -> anyhow::Result<Tables> {
        Ok(Tables {
            meta: vec![in heap; MetaRow::EMPTY; META_ROWS]?,
            arena: vec![in heap; 0u8; ARENA_BYTES]?,
        })
    }
}

fn print_refused(to: Printer<'_>, side: &str, fault: ConvertFault) -> anyhow::Result<Outcome> {
    let rt = to.rt;
    let number = u8::from(fault);
    println!(rt; "{side} refused {number}: {fault}\n")?;
    Ok(Outcome::NotCompared)
}

/// Prints two spans beside each other, and answers whether they agree.
fn print_sides(
    to: Printer<'_>,
    a: &DdSpan<'_, '_, '_>,
    b: &DdSpan<'_, '_, '_>,
) -> anyhow::Result<Outcome>
    ensures { IfOk result (TellsOf (shown a.now) (shown b.now)) }
{
    print_fields(to, a, b)?;
    print_entries(to, a, b, Part::Meta)?;
    print_entries(to, a, b, Part::Metrics)?;
    print_owners(to, a, b, Owner::Link)?;
    print_owners(to, a, b, Owner::Event)?;
    let compared = compare(a, b);
    print_summary(to, a, b, compared)?;
    Ok(Outcome::of(compared.agrees()))
}

/// Converts two spans, each as it is read and in the memory that it is lent, and prints them beside each other.
pub(crate) fn print_converted<R: OtelSpan, S: OtelSpan>(
    to: Printer<'_>,
    left: SdkSpan<'_>,
    of_left: &R,
    right: SdkSpan<'_>,
    of_right: &S,
    left_tables: &mut Tables,
    right_tables: &mut Tables,
) -> anyhow::Result<Outcome> {
    let Tables { meta, arena } = left_tables;
    match otel_span_to_dd_span(left, of_left, meta.as_mut_slice(), arena.as_mut_slice()) {
        Ok(a) => {
            let Tables { meta, arena } = right_tables;
            match otel_span_to_dd_span(right, of_right, meta.as_mut_slice(), arena.as_mut_slice()) {
                Ok(b) => print_sides(to, &a, &b),
                Err(refused) => print_refused(to, "right", refused.fault),
            }
        }
        Err(refused) => print_refused(to, "left", refused.fault),
    }
}
