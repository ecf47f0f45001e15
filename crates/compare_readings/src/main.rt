//! Compares what is read of blocks with answers of another program: blocks and their answers from standard
//! input, one a line. Each answer that differs is printed, and how many agree.
#![tactic(auto)]

mod answer;

use crate::answer::{Answer, Shown};
use blocks::sdk_span::open;
use notation::compared::Compared;
use notation::cut::{Line, Lines, word};
use notation::hex::read_bytes;
use notation::report::NotRead;
use notation::tally::{Summary, Tally};
use span_args::span_extract_args::SpanExtractArgs;
use std::io::Read;

/// The block that answers are about, and the tallies so far.
#[derive(Drop)]
struct State {
    block: Vec<u8>,
    blocks: Tally,
    answers: Compared,
}

/// Goes on to another block.
fn read_block(
    rt: &HostRuntime,
    number: u64,
    digits: &[u8],
    state: &mut State,
) -> anyhow::Result<()> {
    match read_bytes(rt.alloc(), digits) {
        Ok(block) => {
            match open(block.as_slice()) {
                Ok(_) => state.blocks.count(true),
                Err(fault) => {
                    state.blocks.count(false);
                    println!(rt; "line {number}: refused {}: {fault}", u8::from(fault))?;
                }
            }
            state.block = block;
        }
        Err(fault) => {
            state.blocks.count_not_read();
            let line = number;
            print!(rt; "{}", NotRead { line, fault })?;
            state.block = Vec::new(rt.alloc());
        }
    }
    Ok(())
}

/// Compares an answer with what is read of the block.
fn compare(rt: &HostRuntime, line: &Line<'_>, state: &mut State) -> anyhow::Result<()> {
    let number = line.number;
    let Some(answer) = Answer::named(line.text) else {
        state.answers.count_not_compared();
        println!(rt; "line {number}: no answer is written so")?;
        return Ok(());
    };
    let Ok(span) = open(state.block.as_slice()) else {
        state.answers.count_not_compared();
        println!(rt; "line {number}: there is no block")?;
        return Ok(());
    };
    let reader = SpanExtractArgs::new(&span);
    let span = &reader;
    let shown = Shown { span, answer }.to_string(rt.alloc())?;
    let agrees = shown.as_bytes() == line.text;
    state.answers.count(agrees);
    if !agrees {
        println!(rt; "line {number}: {shown} is read")?;
    }
    Ok(())
}

/// A line is a block, or an answer about the last one.
fn read_line(rt: &HostRuntime, line: Line<'_>, state: &mut State) -> anyhow::Result<()> {
    if line.says_nothing() {
        return Ok(());
    }
    let (first, rest) = word(line.text);
    if first == b"block".as_slice() {
        return read_block(rt, line.number, rest, state);
    }
    compare(rt, &line, state)
}

fn run(rt: &HostRuntime) -> anyhow::Result<()> {
    let mut input = Vec::new(rt.alloc());
    rt.stdin().read_to_end(&mut input)?;
    let mut state = State {
        block: Vec::new(rt.alloc()),
        blocks: Tally::default(),
        answers: Compared::default(),
    };
    for line in Lines::new(input.as_slice()) {
        read_line(rt, line, &mut state)?;
    }
    let taken = "blocks accepted";
    let tally = state.blocks;
    println!(rt; "{}", Summary { taken, tally })?;
    println!(rt; "{}", state.answers)?;
    Ok(())
}

fn main(rt: HostRuntime) -> anyhow::Result<()> {
    run(&rt)
}
