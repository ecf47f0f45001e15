//! Opens blocks: lines of hex digits on standard input, or files that have a block each. Of each it prints what
//! the block holds, or why it is refused. With the argument `count` it prints only how many were accepted and refused.
#![tactic(auto)]

mod request;

use crate::request::{Mode, Request};
use blocks::sdk_span::open;
use notation::cut::{Line, Lines};
use notation::hex::read_bytes;
use notation::report::NotRead;
use notation::source::Source;
use notation::tally::{Summary, Tally};
use span_report::facts::Facts;
use span_report::origin::Origin;
use span_report::refusal::Refusal;
use std::io;

/// Opens a block and counts it; prints what it holds, or why it is refused.
fn open_block(
    rt: &HostRuntime,
    mode: Mode,
    origin: Origin<'_>,
    block: &[u8],
    tally: &mut Tally,
) -> io::Result<()> {
    let outcome = open(block);
    tally.count(outcome.is_ok());
    if mode == Mode::Count {
        return Ok(());
    }
    match outcome {
        Ok(span) => println!(rt; "{origin} accepted\n{}", Facts { span: &span }),
        Err(fault) => println!(rt; "{}", Refusal { origin, fault }),
    }
}

/// Opens the block of a line; nothing for an empty line or a comment.
fn open_line(rt: &HostRuntime, mode: Mode, line: Line<'_>, tally: &mut Tally) -> io::Result<()> {
    let line = Line {
        text: line.text.trim_ascii(),
        ..line
    };
    if line.says_nothing() {
        return Ok(());
    }
    let Line { number: line, text } = line;
    match read_bytes(rt.alloc(), text) {
        Ok(block) => open_block(rt, mode, Origin::Line(line), block.as_slice(), tally)?,
        Err(fault) => {
            tally.count_not_read();
            if mode == Mode::Show {
                println!(rt; "{}", NotRead { line, fault })?;
            }
        }
    }
    Ok(())
}

/// Opens the block of a file, or that of each line of standard input. A file that cannot be read is told, and the rest goes on;
/// standard input that cannot be read ends the program.
fn open_source(
    rt: &HostRuntime,
    mode: Mode,
    source: Source<'_>,
    tally: &mut Tally,
) -> io::Result<()> {
    match source {
        Source::StandardInput => {
            let input = source.read(rt)?;
            for line in Lines::new(input.as_slice()) {
                open_line(rt, mode, line, tally)?;
            }
            Ok(())
        }
        Source::File(name) => match source.read(rt) {
            Ok(block) => open_block(rt, mode, Origin::File(name), block.as_slice(), tally),
            // Told with `count` as well, since the summary counts lines alone.
            Err(error) => println!(rt; "{source} not read: {error}\n"),
        },
    }
}

fn run(rt: &HostRuntime) -> anyhow::Result<()> {
    let request = Request::read(rt, rt.alloc())?;
    let mut tally = Tally::default();
    for name in request.sources.iter() {
        open_source(rt, request.mode, Source::named(name.as_str()), &mut tally)?;
    }
    let taken = "blocks accepted";
    println!(rt; "{}", Summary { taken, tally })?;
    Ok(())
}

fn main(rt: HostRuntime) -> anyhow::Result<()> {
    run(&rt)
}
