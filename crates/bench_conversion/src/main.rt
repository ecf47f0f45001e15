//! How long a conversion takes, and the open before it. Times go to standard error.
#![tactic(auto)]

use blocks::sdk_span::{SdkSpan, open};
use conversion::convert::{ARENA_BYTES, META_ROWS, otel_span_to_dd_span};
use conversion::pieces::MetaRow;
use drafts::draft::Draft;
use drafts::start::Start;
use span_args::span_extract_args::SpanExtractArgs;
use std::time::Instant;
use timing::nanos_a_turn;

/// A client of a database, and so many attributes with keys of their own in each of the three plain lists.
#[derive(Clone, Copy)]
struct Shape {
    name: &'static str,
    others: u8,
}

const SHAPES: [Shape; 4] = [
    Shape {
        name: "small",
        others: 2,
    },
    Shape {
        name: "middle",
        others: 10,
    },
    Shape {
        name: "large",
        others: 33,
    },
    Shape {
        name: "full",
        others: 126,
    },
];

const TURNS: u32 = 1000;

/// A smaller arena than the largest, of which all that is not used is cleared as well.
const SMALL_ARENA: usize = 16384;

const START: Start<'static> = Start {
    rows: 400,
    kind: 3,
    trace_id_high: 1,
    trace_id_low: 2,
    span_id: 3,
    parent_id: 4,
    start_time: 1000,
    name: b"load profile",
    trace_state: b"dash=commuter",
    scope_name: b"dash.store",
    scope_version: b"2.0.0",
};

/// Sets the attributes of a shape.
fn set_all(draft: &mut Draft<'_>, shape: Shape) {
    let _ = draft.set(0, b"db.system", 3, b"PostgreSQL");
    let _ = draft.set(0, b"db.statement", 3, b"SELECT seat FROM profile");
    for list in 0..3u8 {
        for i in 0..shape.others {
            let mut key = *b"dash.attribute.000";
            key[15] = b'0' + list;
            key[16] = b'a' + i / 16;
            key[17] = b'a' + i % 16;
            let _ = draft.set(list, &key, 3, b"city");
        }
    }
}

/// The block of a shape's span; none where the start is refused.
fn record<'a>(memory: &'a mut [u8], shape: Shape) -> Option<SdkSpan<'a>> {
    let Ok(draft) = Draft::start(memory, &START) else {
        return None;
    };
    let mut draft = draft;
    set_all(&mut draft, shape);
    Some(draft.end(1500))
}

/// How often a block is opened.
fn times_opened(block: &[u8]) -> usize {
    (0..TURNS).filter(|_| open(block).is_ok()).count()
}

/// How many texts the last of the conversions has, or the number of its refusal; 0 where the block is refused.
fn times_converted(block: &[u8], meta: &mut [MetaRow], arena: &mut [u8]) -> usize {
    let mut last = 0;
    for _ in 0..TURNS {
        let Ok(span) = open(block) else {
            return 0;
        };
        let reader = SpanExtractArgs::new(&span);
        last = match otel_span_to_dd_span(span, &reader, meta, arena) {
            Ok(converted) => converted.meta_count(),
            Err(refused) => u8::from(refused.fault) as usize,
        };
    }
    last
}

/// How many texts conversions in an arena have, and how long one takes with the open before it, in nanoseconds.
#[derive(Clone, Copy)]
struct Timed {
    texts: usize,
    nanos: u128,
}

fn time_converted(
    rt: &HostRuntime,
    block: &[u8],
    meta: &mut [MetaRow],
    arena: &mut [u8],
) -> anyhow::Result<Timed> {
    let start = Instant::now(rt)?;
    let texts = times_converted(block, meta, arena);
    let nanos = nanos_a_turn(start.elapsed(rt)?, TURNS);
    Ok(Timed { texts, nanos })
}

fn print_times(
    rt: &HostRuntime,
    shape: Shape,
    span: &SdkSpan<'_>,
    large: Timed,
    small: Timed,
) -> anyhow::Result<()> {
    let name = shape.name;
    let rows = span.row_count();
    let start = Instant::now(rt)?;
    let opened = times_opened(span.block());
    let open_took = nanos_a_turn(start.elapsed(rt)?, TURNS);
    let Timed { texts, nanos } = large;
    let small_nanos = small.nanos;
    let small_texts = small.texts;
    println!(rt; "{name}: {rows} rows, opened {opened} times, {texts} and {small_texts} texts")?;
    eprintln!(rt; "{name:<6} {rows:>4} rows: opened in {open_took:>7} ns")?;
    eprintln!(rt; "  and converted in {nanos:>7} ns, in a small arena in {small_nanos:>7} ns")?;
    Ok(())
}

fn print_shape(rt: &HostRuntime, shape: Shape) -> anyhow::Result<()> {
    let mut memory = vec![in rt.alloc(); 0u8; 32768]?;
    let mut meta = vec![in rt.alloc(); MetaRow::EMPTY; META_ROWS]?;
    let mut arena = vec![in rt.alloc(); 0u8; ARENA_BYTES]?;
    let mut small_arena = vec![in rt.alloc(); 0u8; SMALL_ARENA]?;
    let name = shape.name;
    let Some(span) = record(&mut memory[..], shape) else {
        println!(rt; "{name}: not recorded")?;
        return Ok(());
    };
    let large = time_converted(rt, span.block(), &mut meta[..], &mut arena[..])?;
    let small = time_converted(rt, span.block(), &mut meta[..], &mut small_arena[..])?;
    print_times(rt, shape, &span, large, small)
}

fn main(rt: HostRuntime) -> anyhow::Result<()> {
    for shape in SHAPES {
        print_shape(&rt, shape)?;
    }
    Ok(())
}
