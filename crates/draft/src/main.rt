//! Records spans: reads calls of drafts, one a line, from standard input or from the files that the arguments name,
//! and prints each with its answer. Of a span that is ended it prints all that it holds, and its block.
#![tactic(auto)]

mod command;
mod fault;
mod fields;
mod opening;
mod replay;
mod report;
mod said;
mod words;

use crate::replay::make_calls;
use notation::source::Source;
use notation::tally::{Summary, Tally};
use std::{env, io};

/// Makes the calls of a source.
fn read_source(rt: &HostRuntime, source: Source<'_>, tally: &mut Tally) -> io::Result<()> {
    match source.read(rt) {
        Ok(text) => {
            println!(rt; "{source}\n")?;
            make_calls(rt, text.as_slice(), tally)
        }
        Err(error) => println!(rt; "{source} not read: {error}\n"),
    }
}

fn run(rt: &HostRuntime) -> anyhow::Result<()> {
    let mut tally = Tally::default();
    let mut named = false;
    for word in env::args(rt)?.skip(1) {
        named = true;
        read_source(rt, Source::named(word.as_str()), &mut tally)?;
    }
    if !named {
        read_source(rt, Source::StandardInput, &mut tally)?;
    }
    let taken = "calls taken";
    println!(rt; "{}", Summary { taken, tally })?;
    Ok(())
}

fn main(rt: HostRuntime) -> anyhow::Result<()> {
    run(&rt)
}
