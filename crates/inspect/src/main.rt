//! Shows typed attributes: reads one a line from standard input, and prints for each what the checked
//! value shows, or why it is refused.
#![tactic(auto)]

mod attribute;
mod report;

use crate::attribute::Attribute;
use crate::report::Report;
use notation::cut::{Line, Lines};
use notation::report::NotRead;
use notation::tally::{Summary, Tally};
use std::io;
use std::io::Read;
use values::check::check;

/// Prints the block of one attribute, and counts it.
fn print_attribute(
    rt: &HostRuntime,
    line: u64,
    attribute: &Attribute<'_>,
    tally: &mut Tally,
) -> io::Result<()> {
    let key = attribute.key;
    let kind = attribute.value.kind;
    let outcome = check(kind, attribute.value.bytes.as_slice());
    tally.count(outcome.is_ok());
    let report = Report {
        line,
        key,
        kind,
        outcome,
    };
    println!(rt; "{report}")
}

/// Prints what a line says, nothing for an empty line or a comment.
fn print_line(rt: &HostRuntime, line: Line<'_>, tally: &mut Tally) -> io::Result<()> {
    let line = Line {
        text: line.text.trim_ascii_start(),
        ..line
    };
    if line.says_nothing() {
        return Ok(());
    }
    let Line { number: line, text } = line;
    match Attribute::parse(rt.alloc(), text) {
        Ok(attribute) => print_attribute(rt, line, &attribute, tally),
        Err(fault) => {
            tally.count_not_read();
            println!(rt; "{}", NotRead { line, fault })
        }
    }
}

fn print_all(rt: &HostRuntime, input: &[u8]) -> io::Result<Tally> {
    let mut tally = Tally::default();
    for line in Lines::new(input) {
        print_line(rt, line, &mut tally)?;
    }
    Ok(tally)
}

fn main(rt: HostRuntime) -> io::Result<()> {
    let mut input = Vec::new(rt.alloc());
    rt.stdin().read_to_end(&mut input)?;
    let tally = print_all(&rt, input.as_slice())?;
    let taken = "attributes shown";
    println!(rt; "{}", Summary { taken, tally })
}
