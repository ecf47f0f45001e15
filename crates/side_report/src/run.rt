//! All that the program does.
use crate::input::{Block, read_block};
use crate::outcome::Outcome;
use crate::request::{Edition, Request, command};
use crate::sides::Printer;
use crate::spans::{Tables, print_converted};
use blocks::sdk_span::{SdkSpan, open};
use layer::later_edition::LaterEdition;
use notation::cut::Lines;
use notation::source::Source;
use span_args::span_extract_args::SpanExtractArgs;
use span_report::refusal::Refusal;
use std::env;
use std::process::ExitCode;

/// The span in a block; none, and why is printed, where the block is refused.
fn opened<'s>(rt: &HostRuntime, block: &'s Block<'_>) -> anyhow::Result<Option<SdkSpan<'s>>> {
    match open(block.bytes.as_slice()) {
        Ok(span) => Ok(Some(span)),
        Err(fault) => {
            let origin = block.origin;
            println!(rt; "{}", Refusal { origin, fault })?;
            Ok(None)
        }
    }
}

/// Prints the spans of two blocks beside each other, read so.
fn print_blocks(
    to: Printer<'_>,
    left: &Block<'_>,
    right: &Block<'_>,
    edition: Edition,
) -> anyhow::Result<Outcome> {
    let rt = to.rt;
    let a = opened(rt, left)?;
    let b = opened(rt, right)?;
    let (Some(a), Some(b)) = (a, b) else {
        return Ok(Outcome::NotCompared);
    };
    let mut t = Tables::new(to.heap())?;
    let mut u = Tables::new(to.heap())?;
    println!(rt; "{edition}")?;
    match edition {
        Edition::Bare => {
            let of_a = SpanExtractArgs::new(&a);
            let of_b = SpanExtractArgs::new(&b);
            print_converted(to, a, &of_a, b, &of_b, &mut t, &mut u)
        }
        Edition::Later => {
            let of_a = LaterEdition::new(SpanExtractArgs::new(&a));
            let of_b = LaterEdition::new(SpanExtractArgs::new(&b));
            print_converted(to, a, &of_a, b, &of_b, &mut t, &mut u)
        }
    }
}

/// Whether a block comes from standard input.
fn is_input(source: Source<'_>) -> bool {
    matches!(source, Source::StandardInput)
}

/// All of standard input, if one of the blocks comes from there.
fn input_of(rt: &HostRuntime, asked: Request<'_>) -> anyhow::Result<Vec<u8>> {
    if is_input(asked.left) || is_input(asked.right) {
        Ok(Source::StandardInput.read(rt)?)
    } else {
        Ok(Vec::new(rt.alloc()))
    }
}

/// Compares what was asked for; the worst of what became of it.
fn compared(rt: &HostRuntime, asked: Request<'_>) -> anyhow::Result<Outcome> {
    let input = input_of(rt, asked)?;
    let mut lines = Lines::new(input.as_slice());
    let left = read_block(rt, asked.left, &mut lines)?;
    let right = read_block(rt, asked.right, &mut lines)?;
    let (Some(left), Some(right)) = (left, right) else {
        return Ok(Outcome::NotCompared);
    };
    println!(rt; "left   {left}\nright  {right}\n")?;
    let rows = asked.rows;
    let to = Printer { rt, rows };
    let mut outcome = Outcome::Agree;
    if asked.bare {
        outcome = print_blocks(to, &left, &right, Edition::Bare)?;
    }
    if asked.later && outcome != Outcome::NotCompared {
        outcome = outcome.worse(print_blocks(to, &left, &right, Edition::Later)?);
    }
    Ok(outcome)
}

fn status(rt: &HostRuntime) -> anyhow::Result<u8> {
    let heap = rt.alloc();
    let words: Vec<String> = env::args(rt)?.collect(heap)?;
    match command(heap)?.try_get_matches_from(words.as_slice()) {
        Ok(matches) => Ok(compared(rt, Request::new(&matches))?.status()),
        Err(error) => {
            error.print(rt)?;
            Ok(error.exit_code() as u8)
        }
    }
}

/// Runs the program by its arguments; answers its exit status, which is 2 too where memory or the printing fails.
pub fn run(rt: &HostRuntime) -> ExitCode {
    match status(rt) {
        Ok(status) => ExitCode::from(status),
        Err(error) => {
            let _ = eprintln!(rt; "side_by_side: {error}");
            ExitCode::from(Outcome::NotCompared.status())
        }
    }
}
