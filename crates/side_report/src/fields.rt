//! The rows of the single fields.
use crate::cells::field_cell;
use crate::mark::Mark;
use crate::row::Row;
use crate::sides::Printer;
use conversion::dd_span::DdSpan;
use conversion_sides::fields::Field;

/// The word by which a field is printed.
fn label(field: Field) -> &'static str {
    match field {
        Field::Service => "service",
        Field::Name => "name",
        Field::Resource => "resource",
        Field::SpanType => "type",
        Field::TraceId => "trace id",
        Field::SpanId => "span id",
        Field::ParentId => "parent id",
        Field::Start => "start",
        Field::Duration => "duration",
        Field::Error => "error",
    }
}

/// Prints the fields.
pub(crate) fn print_fields(
    to: Printer<'_>,
    a: &DdSpan<'_, '_, '_>,
    b: &DdSpan<'_, '_, '_>,
) -> anyhow::Result<()> {
    let heap = to.heap();
    for field in Field::ALL {
        let mark = Mark::of(field.standing(a, b), false);
        if to.shows(mark) {
            let row = Row {
                mark,
                name: String::from_str(heap, label(field))?,
                left: field_cell(heap, field.value(a))?,
                right: field_cell(heap, field.value(b))?,
            };
            to.print(&row)?;
        }
    }
    Ok(())
}
