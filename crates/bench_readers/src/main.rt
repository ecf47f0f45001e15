//! How long a reading and the six fields take. What is derived goes to standard output, which is
//! compared; the times go to standard error, since they differ from run to run.
#![tactic(auto)]

use blocks::lists::List;
use blocks::sdk_span::SdkSpan;
use derived::fields::{
    datadog_env, datadog_name, datadog_resource, datadog_service, datadog_status_code, datadog_type,
};
use lent_bytes::fields::Number;
use lent_bytes::memory::{part, write};
use names::attribute_keys::{DB_STATEMENT, DB_SYSTEM, attribute_keys};
use readers::otel_util::OtelSpan;
use span_args::span_extract_args::SpanExtractArgs;
use std::time::Instant;
use timing::nanos_a_turn;

/// A block of a client: so many rows of unknown keys, half of them the resource's, and below them the
/// database and a statement of so many bytes.
#[derive(Clone, Copy)]
struct Shape {
    name: &'static str,
    others: u16,
    statement: u32,
}

const SHAPES: [Shape; 3] = [
    Shape {
        name: "small",
        others: 4,
        statement: 40,
    },
    Shape {
        name: "middle",
        others: 100,
        statement: 400,
    },
    Shape {
        name: "full",
        others: 254,
        statement: 4096,
    },
];

const TURNS: u32 = 1000;

/// A row: its list, and where its key and its value, a string, stand.
#[derive(Clone, Copy)]
struct At {
    list: List,
    key: u32,
    key_len: u16,
    value: u32,
    value_len: u32,
}

fn put_row(m: &mut [u8], i: u16, row: At) {
    let at = 120 + 24 * i as usize;
    write(m, at, &[u8::from(row.list), 3]);
    row.key_len.put(m, at + 2);
    row.key.put(m, at + 4);
    row.value_len.put(m, at + 8);
    row.value.put(m, at + 12);
}

/// The header: a client's span, so many rows, and how long the text behind them is.
fn put_header(m: &mut [u8], rows: u16, offset: u32, text_len: u32) {
    1u16.put(m, 0);
    rows.put(m, 2);
    offset.put(m, 4);
    rows.put(m, 8);
    write(m, 10, &[3, 0]);
    text_len.put(m, 12);
    write(m, 76, &[1]);
}

/// A row of an unknown key, the span's or the resource's in turn.
fn other_row(i: u16) -> At {
    let list = if i % 2 == 0 {
        List::Span
    } else {
        List::Resource
    };
    At {
        list,
        key: 31,
        key_len: 14,
        value: 0,
        value_len: 9,
    }
}

/// The rows: the unknown keys, and below them the database and the statement.
fn put_rows(m: &mut [u8], others: u16, statement: u32) {
    for i in 0..others {
        put_row(m, i, other_row(i));
    }
    let system = At {
        list: List::Span,
        key: 0,
        key_len: 9,
        value: 9,
        value_len: 10,
    };
    let asked = At {
        list: List::Span,
        key: 19,
        key_len: 12,
        value: 45,
        value_len: statement,
    };
    put_row(m, others, system);
    put_row(m, others.saturating_add(1), asked);
}

/// Writes the block, and answers its length. Rows with an unknown key all have the same one; those of `bench_blocks` have
/// keys that differ within a list.
fn put_block(m: &mut [u8], shape: Shape) -> usize {
    let others = shape.others.min(1000);
    let statement = shape.statement.min(4096);
    let offset = 120 + 24 * (others + 2) as u32;
    put_header(m, others + 2, offset, 45 + statement);
    put_rows(m, others, statement);
    let text = offset as usize;
    write(m, text, b"db.systemPostgreSQLdb.statementsome.other.key");
    write(m, text + 45, part(&[b's'; 4096], 0, statement as usize));
    text + 45 + statement as usize
}

/// The lengths of all texts of a reading, added up.
fn read_all<S: OtelSpan>(span: &S, out: &mut [u8; 4096]) -> usize {
    let mut sum = 0usize;
    for key in attribute_keys() {
        sum = sum.saturating_add(span.get_attr_str_opt(key, out).unwrap_or(0));
        sum = sum.saturating_add(span.get_res_attribute_opt(key, out).unwrap_or(0));
    }
    sum
}

/// The lengths of the six fields, added up; the status code counts 1.
fn derive_all<S: OtelSpan>(span: &S, long: &mut [u8; 8200], short: &mut [u8; 4096]) -> usize {
    let sum = datadog_name(span, long).saturating_add(datadog_resource(span, long));
    let sum = sum.saturating_add(datadog_type(span, short));
    let sum = sum.saturating_add(datadog_service(span, short));
    let sum = sum.saturating_add(datadog_env(span, short));
    sum.saturating_add((datadog_status_code(span) != 0) as usize)
}

/// How often a reader has the rows of both keys.
fn times_noted(span: &SdkSpan<'_>) -> usize {
    (0..TURNS)
        .filter(|_| {
            let reader = SpanExtractArgs::new(span);
            reader.has_attr(DB_SYSTEM) && reader.has_attr(DB_STATEMENT)
        })
        .count()
}

fn times_read<S: OtelSpan>(span: &S) -> usize {
    let mut out = [0u8; 4096];
    (0..TURNS).fold(0, |_, _| read_all(span, &mut out))
}

fn times_derived<S: OtelSpan>(span: &S) -> usize {
    let mut long = [0u8; 8200];
    let mut short = [0u8; 4096];
    (0..TURNS).fold(0, |_, _| derive_all(span, &mut long, &mut short))
}

fn print_shape(rt: &HostRuntime, shape: Shape) -> anyhow::Result<()> {
    let mut memory = vec![in rt.alloc(); 0u8; 65536]?;
    let len = put_block(&mut memory[..], shape);
    let span = SdkSpan::of_ended(part(&memory[..], 0, len));
    let name = shape.name;
    println!(rt; "{name}: {len} bytes")?;
    let start = Instant::now(rt)?;
    let noted = times_noted(&span);
    let note = nanos_a_turn(start.elapsed(rt)?, TURNS);
    println!(rt; "  noted the rows of both keys {noted} times")?;
    let reader = SpanExtractArgs::new(&span);
    let start = Instant::now(rt)?;
    let texts = times_read(&reader);
    let read = nanos_a_turn(start.elapsed(rt)?, TURNS);
    let start = Instant::now(rt)?;
    let fields = times_derived(&reader);
    let derive = nanos_a_turn(start.elapsed(rt)?, TURNS);
    println!(rt; "  texts of {texts} bytes, fields of {fields}")?;
    eprintln!(rt;
        "{name:<6} {len:>6} bytes: rows noted in {note:>7} ns, all 86 texts read in {read:>7} ns, six fields in {derive:>7} ns"
    )?;
    Ok(())
}

fn main(rt: HostRuntime) -> anyhow::Result<()> {
    for shape in SHAPES {
        print_shape(&rt, shape)?;
    }
    Ok(())
}
