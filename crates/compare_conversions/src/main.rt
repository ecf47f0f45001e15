//! Compares conversions with those of another program: blocks and, below each, the lines of the Datadog span that the
//! other program makes of it, from standard input. Each line that differs is printed, and how many agree.
#![tactic(auto)]

mod lines;
mod typed;

use crate::lines::lines_of;
use blocks::sdk_span::open;
use conversion::convert::{ARENA_BYTES, META_ROWS, otel_span_to_dd_span};
use conversion::pieces::MetaRow;
use notation::compared::Compared;
use notation::cut::{Line, Lines, word};
use notation::hex::read_bytes;
use notation::report::NotRead;
use notation::tally::{Summary, Tally};
use span_args::span_extract_args::SpanExtractArgs;
use std::io::Read;

/// The lines of the last block's conversion, how many of them were compared, and the tallies so far.
#[derive(Drop)]
struct State {
    lines: Vec<String>,
    next: usize,
    blocks: Tally,
    compared: Compared,
}

/// The lines of the span in a block, which is empty where it is refused.
fn convert(
    rt: &HostRuntime,
    number: u64,
    block: &[u8],
    blocks: &mut Tally,
) -> anyhow::Result<Vec<String>> {
    let span = match open(block) {
        Ok(span) => span,
        Err(fault) => {
            blocks.count(false);
            println!(rt; "line {number}: refused {}: {fault}", u8::from(fault))?;
            return Ok(Vec::new(rt.alloc()));
        }
    };
    let mut meta = vec![in rt.alloc(); MetaRow::EMPTY; META_ROWS]?;
    let mut arena = vec![in rt.alloc(); 0u8; ARENA_BYTES]?;
    let reader = SpanExtractArgs::new(&span);
    match otel_span_to_dd_span(span, &reader, meta.as_mut_slice(), arena.as_mut_slice()) {
        Ok(converted) => {
            blocks.count(true);
            lines_of(&converted, rt.alloc())
        }
        Err(refused) => {
            blocks.count(false);
            let fault = refused.fault;
            println!(rt; "line {number}: refused {}: {fault}", u8::from(fault))?;
            Ok(Vec::new(rt.alloc()))
        }
    }
}

/// Counts the lines of the last block's conversion that the other program does not have.
fn end_block(rt: &HostRuntime, state: &mut State) -> anyhow::Result<()> {
    for line in state.lines.iter().skip(state.next) {
        state.compared.count(false);
        println!(rt; "not in the other conversion: {line}")?;
    }
    Ok(())
}

/// Goes on to another block.
fn read_block(
    rt: &HostRuntime,
    number: u64,
    digits: &[u8],
    state: &mut State,
) -> anyhow::Result<()> {
    end_block(rt, state)?;
    state.next = 0;
    match read_bytes(rt.alloc(), digits) {
        Ok(block) => {
            state.lines = convert(rt, number, block.as_slice(), &mut state.blocks)?;
        }
        Err(fault) => {
            state.blocks.count_not_read();
            let line = number;
            print!(rt; "{}", NotRead { line, fault })?;
            state.lines = Vec::new(rt.alloc());
        }
    }
    Ok(())
}

/// Compares a line with the next of the conversion's.
fn compare(rt: &HostRuntime, line: &Line<'_>, state: &mut State) -> anyhow::Result<()> {
    let number = line.number;
    let Some(own) = state.lines.get(state.next) else {
        state.compared.count_not_compared();
        println!(rt; "line {number}: the conversion has no such line")?;
        return Ok(());
    };
    state.next = state.next.saturating_add(1);
    let agrees = own.as_bytes() == line.text;
    state.compared.count(agrees);
    if !agrees {
        println!(rt; "line {number}: {own} is in its place")?;
    }
    Ok(())
}

/// A line is a block, or a line of the other conversion of the last one.
fn read_line(rt: &HostRuntime, line: Line<'_>, state: &mut State) -> anyhow::Result<()> {
    if line.says_nothing() {
        return Ok(());
    }
    let (first, rest) = word(line.text);
    if first == b"block".as_slice() {
        return read_block(rt, line.number, rest, state);
    }
    compare(rt, &line, state)
}

fn run(rt: &HostRuntime) -> anyhow::Result<()> {
    let mut input = Vec::new(rt.alloc());
    rt.stdin().read_to_end(&mut input)?;
    let mut state = State {
        lines: Vec::new(rt.alloc()),
        next: 0,
        blocks: Tally::default(),
        compared: Compared::default(),
    };
    for line in Lines::new(input.as_slice()) {
        read_line(rt, line, &mut state)?;
    }
    end_block(rt, &mut state)?;
    let taken = "spans converted";
    let tally = state.blocks;
    println!(rt; "{}", Summary { taken, tally })?;
    println!(rt; "{}", state.compared)?;
    Ok(())
}

fn main(rt: HostRuntime) -> anyhow::Result<()> {
    run(&rt)
}
