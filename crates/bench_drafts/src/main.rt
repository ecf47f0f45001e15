//! How long a set takes in drafts of few and of many rows. What the sets answer goes to standard output,
//! which is compared; the times go to standard error, since they differ from run to run.
#![tactic(auto)]

use blocks::lists::List;
use drafts::draft::Draft;
use drafts::refusal::answer_number;
use drafts::start::Start;
use std::time::Instant;
use timing::nanos_a_turn;
use values::value::Scalar;

/// A draft with so many events of so many attributes each, with keys of two bytes.
#[derive(Clone, Copy)]
struct Shape {
    name: &'static str,
    events: u8,
    each: u8,
}

const SHAPES: [Shape; 4] = [
    Shape {
        name: "empty",
        events: 0,
        each: 0,
    },
    Shape {
        name: "small",
        events: 2,
        each: 5,
    },
    Shape {
        name: "middle",
        events: 2,
        each: 60,
    },
    Shape {
        name: "full",
        events: 7,
        each: 127,
    },
];

/// Sets are repeated so often, each with another value in the same row.
const TURNS: u32 = 200;

fn start_of() -> Start<'static> {
    Start {
        rows: 1024,
        kind: 2,
        trace_id_high: 1,
        trace_id_low: 2,
        span_id: 3,
        parent_id: 0,
        start_time: 10,
        name: b"PUT /v1/profiles",
        trace_state: b"",
        scope_name: b"dash.profiles",
        scope_version: b"1.4.2",
    }
}

fn put_rows(draft: &mut Draft<'_>, shape: Shape) {
    let _ = draft.set_value(List::Span, b"last.profile", Scalar::String(b"track"));
    for _ in 0..shape.events {
        let _ = draft.event(b"saved", 12);
        for i in 0..shape.each {
            let _ = draft.set_value(
                List::EventAttribute,
                &[b'a' + i / 16, b'a' + i % 16],
                Scalar::String(b"value"),
            );
        }
    }
}

/// How many of the sets of one attribute are applied.
fn times_applied(draft: &mut Draft<'_>, list: List, key: &[u8]) -> usize {
    (0..TURNS)
        .filter(|_| answer_number(draft.set_value(list, key, Scalar::String(b"commuter"))) == 0)
        .count()
}

fn print_list(
    rt: &HostRuntime,
    draft: &mut Draft<'_>,
    list: List,
    name: &str,
) -> anyhow::Result<()> {
    let start = Instant::now(rt)?;
    let applied = times_applied(draft, list, b"last.profile");
    let nanos = nanos_a_turn(start.elapsed(rt)?, TURNS);
    let list = u8::from(list);
    println!(rt; "{name:<6} list {list}: applied {applied} times")?;
    eprintln!(rt; "{name:<6} list {list}: {nanos:>7} ns a set")?;
    Ok(())
}

fn print_shape(rt: &HostRuntime, shape: Shape) -> anyhow::Result<()> {
    let mut memory = vec![in rt.alloc(); 0u8; 65536]?;
    match Draft::start(&mut memory[..], &start_of()) {
        Ok(draft) => {
            let mut draft = draft;
            put_rows(&mut draft, shape);
            let span = print_list(rt, &mut draft, List::Span, shape.name);
            let event = print_list(rt, &mut draft, List::EventAttribute, shape.name);
            let span_of = draft.end(20);
            let rows = span_of.row_count();
            span?;
            event?;
            println!(rt; "{:<6} {rows:>4} rows", shape.name)?;
            Ok(())
        }
        Err(refused) => {
            let number = u8::from(refused.fault);
            println!(rt; "not started: {number}")?;
            Ok(())
        }
    }
}

fn main(rt: HostRuntime) -> anyhow::Result<()> {
    for shape in SHAPES {
        print_shape(&rt, shape)?;
    }
    Ok(())
}
