//! Converts spans: blocks from lines of hex digits on standard input, or from files that have a block each. Of each it
//! prints the Datadog span, or why the block or the conversion is refused. What is named behind the argument `later` is
//! read under the layer for the later edition of the conventions.
#![tactic(auto)]

mod converted;
mod request;

use crate::converted::{Tables, print_converted};
use crate::request::{Edition, requests};
use blocks::sdk_span::open;
use layer::later_edition::LaterEdition;
use notation::cut::{Line, Lines};
use notation::hex::read_bytes;
use notation::report::NotRead;
use notation::source::Source;
use notation::tally::{Summary, Tally};
use span_args::span_extract_args::SpanExtractArgs;
use span_report::origin::Origin;
use span_report::refusal::Refusal;

/// How spans are read, the memory of the conversions, and the tally so far.
#[derive(Drop)]
struct State {
    edition: Edition,
    tables: Tables,
    tally: Tally,
}

/// Converts the span in a block and counts it.
fn convert_block(
    rt: &HostRuntime,
    origin: Origin<'_>,
    block: &[u8],
    state: &mut State,
) -> anyhow::Result<()> {
    let span = match open(block) {
        Ok(span) => span,
        Err(fault) => {
            state.tally.count(false);
            println!(rt; "{}", Refusal { origin, fault })?;
            return Ok(());
        }
    };
    let tables = &mut state.tables;
    let taken = match state.edition {
        Edition::Bare => {
            let reader = SpanExtractArgs::new(&span);
            print_converted(rt, origin, span, &reader, tables)?
        }
        Edition::Later => {
            let reader = LaterEdition::new(SpanExtractArgs::new(&span));
            print_converted(rt, origin, span, &reader, tables)?
        }
    };
    state.tally.count(taken);
    Ok(())
}

/// Converts the span in the block of a line; nothing for an empty line or a comment.
fn convert_line(rt: &HostRuntime, line: Line<'_>, state: &mut State) -> anyhow::Result<()> {
    if line.says_nothing() {
        return Ok(());
    }
    let text = line.text.trim_ascii();
    let line = line.number;
    match read_bytes(rt.alloc(), text) {
        Ok(block) => convert_block(rt, Origin::Line(line), block.as_slice(), state)?,
        Err(fault) => {
            state.tally.count_not_read();
            println!(rt; "{}", NotRead { line, fault })?;
        }
    }
    Ok(())
}

/// Converts the span in the block of a file, or those of standard input.
fn convert_source(rt: &HostRuntime, source: Source<'_>, state: &mut State) -> anyhow::Result<()> {
    match source.read(rt) {
        Ok(bytes) => match source {
            Source::File(name) => {
                convert_block(rt, Origin::File(name), bytes.as_slice(), state)?;
            }
            Source::StandardInput => {
                for line in Lines::new(bytes.as_slice()) {
                    convert_line(rt, line, state)?;
                }
            }
        },
        Err(error) => println!(rt; "{source} not read: {error}\n")?,
    }
    Ok(())
}

fn run(rt: &HostRuntime) -> anyhow::Result<()> {
    let mut state = State {
        edition: Edition::Bare,
        tables: Tables::new(rt.alloc())?,
        tally: Tally::default(),
    };
    for asked in requests(rt, rt.alloc())?.iter() {
        state.edition = asked.edition;
        convert_source(rt, Source::named(asked.name.as_str()), &mut state)?;
    }
    let taken = "spans converted";
    let tally = state.tally;
    println!(rt; "{}", Summary { taken, tally })?;
    Ok(())
}

fn main(rt: HostRuntime) -> anyhow::Result<()> {
    run(&rt)
}
