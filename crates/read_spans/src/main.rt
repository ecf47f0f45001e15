//! Reads spans: blocks from standard input, one a line as hex digits. Of each it prints the known keys
//! that are present, and the six fields that a Datadog span derives from them, as they are and, behind
//! that, under the layer for the later edition of the conventions.
#![tactic(auto)]

use blocks::sdk_span::{SdkSpan, open};
use layer::later_edition::LaterEdition;
use names::attribute_keys::attribute_keys;
use notation::cut::{Line, Lines};
use notation::hex::read_bytes;
use readers::otel_util::OtelSpan;
use reading_report::field::{FIELDS, FieldTexts};
use reading_report::key_line::{KeyLine, KeyTexts};
use span_args::span_extract_args::SpanExtractArgs;
use std::io::Read;

/// Prints the known keys that are present, in the order of their table.
fn print_keys<S: OtelSpan>(rt: &HostRuntime, span: &S) -> anyhow::Result<()> {
    let mut texts = KeyTexts::new();
    for key in attribute_keys() {
        let line = KeyLine::read(span, key, &mut texts);
        if line.is_present() {
            println!(rt; "{line}")?;
        }
    }
    Ok(())
}

/// Prints the six fields of two readers side by side.
fn print_fields<A: OtelSpan, B: OtelSpan>(rt: &HostRuntime, a: &A, b: &B) -> anyhow::Result<()> {
    let mut one = FieldTexts::new();
    let mut other = FieldTexts::new();
    for field in FIELDS {
        let of_a = field.read(a, &mut one);
        let of_b = field.read(b, &mut other);
        println!(rt; "{field} {of_a} {of_b}")?;
    }
    Ok(())
}

fn print_span(rt: &HostRuntime, span: &SdkSpan<'_>) -> anyhow::Result<()> {
    let bare = SpanExtractArgs::new(span);
    let later = LaterEdition::new(bare);
    print_keys(rt, &bare)?;
    print_fields(rt, &bare, &later)
}

/// Reads the span of a line; nothing for an empty line or a comment.
fn read_line(rt: &HostRuntime, line: Line<'_>) -> anyhow::Result<()> {
    let line = Line {
        text: line.text.trim_ascii(),
        ..line
    };
    if line.says_nothing() {
        return Ok(());
    }
    let Line { number, text } = line;
    match read_bytes(rt.alloc(), text) {
        Ok(block) => match open(block.as_slice()) {
            Ok(span) => {
                println!(rt; "line {number}")?;
                print_span(rt, &span)?;
            }
            Err(fault) => println!(rt; "line {number} refused: {}", u8::from(fault))?,
        },
        Err(fault) => println!(rt; "line {number} not read: {fault}")?,
    }
    Ok(())
}

fn run(rt: &HostRuntime) -> anyhow::Result<()> {
    let mut input = Vec::new(rt.alloc());
    rt.stdin().read_to_end(&mut input)?;
    for line in Lines::new(input.as_slice()) {
        read_line(rt, line)?;
    }
    Ok(())
}

fn main(rt: HostRuntime) -> anyhow::Result<()> {
    run(&rt)
}
