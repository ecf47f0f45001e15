//! The calls of a text, made one after another.
use crate::command::Command;
use crate::opening::Opening;
use crate::report::{Answer, NotStarted, is_filled, print_block, print_row};
use blocks::sdk_span::SdkSpan;
use drafts::draft::Draft;
use escape::Escaped;
use notation::cut::{Line, Lines};
use notation::tally::Tally;
use span_report::facts::Facts;
use std::io;

/// What lent memory is filled with, so that it shows that a start clears it.
const LENT: u8 = 0xa5;

/// How the calls of a draft ended.
#[derive(Clone, Copy)]
enum Ending {
    End { time: i64 },
    Discard,
    InputEnds,
}

/// What lent memory holds when it comes back.
#[derive(Clone, Copy)]
enum Left {
    /// What it held before a start that was refused.
    Refused,
    /// An ended span.
    Ended,
    /// Zeros.
    Discarded,
}

/// The command of a line, which is printed; none of an empty line, of a comment, and of a line that is not read.
fn read_line(rt: &HostRuntime, line: Line<'_>, tally: &mut Tally) -> io::Result<Option<Command>> {
    if line.says_nothing() {
        return Ok(None);
    }
    let number = line.number;
    let text = line.text.trim_ascii_start();
    println!(rt; "line {number:<11} {}", Escaped(text))?;
    match Command::parse(rt.alloc(), text) {
        Ok(command) => Ok(Some(command)),
        Err(fault) => {
            tally.count_not_read();
            print_row(rt, "not read", fault)?;
            Ok(None)
        }
    }
}

/// Makes the call of a line; answers how the draft ends, where it does.
fn make_call(
    rt: &HostRuntime,
    draft: &mut Draft<'_>,
    command: Command,
    tally: &mut Tally,
) -> io::Result<Option<Ending>> {
    match command {
        Command::Call(said) => {
            let answer = draft.apply(said.call());
            tally.count(answer.is_ok());
            print_row(rt, "answer", Answer(answer))?;
            Ok(None)
        }
        Command::Start(_opening) => {
            tally.count(false);
            print_row(rt, "answer", "a draft is open")?;
            Ok(None)
        }
        Command::End { time } => Ok(Some(Ending::End { time })),
        Command::Discard => Ok(Some(Ending::Discard)),
    }
}

/// Makes the calls of a draft that has started, until it is to be let go.
fn make_all(
    rt: &HostRuntime,
    draft: &mut Draft<'_>,
    lines: &mut Lines<'_>,
    tally: &mut Tally,
) -> io::Result<Ending> {
    tally.count(true);
    print_row(rt, "answer", "started")?;
    for line in lines.by_ref() {
        if let Some(command) = read_line(rt, line, tally)? {
            if let Some(ending) = make_call(rt, draft, command, tally)? {
                return Ok(ending);
            }
        }
    }
    Ok(Ending::InputEnds)
}

fn print_ended(rt: &HostRuntime, span: SdkSpan<'_>, tally: &mut Tally) -> io::Result<Left> {
    tally.count(true);
    print_row(rt, "answer", "ended")?;
    print!(rt; "{}", Facts { span: &span })?;
    Ok(Left::Ended)
}

fn print_discarded(rt: &HostRuntime, tally: &mut Tally) -> io::Result<Left> {
    tally.count(true);
    print_row(rt, "answer", "discarded")?;
    Ok(Left::Discarded)
}

/// Starts a draft in memory and makes the calls of the lines, until it is ended or discarded. It is discarded too where
/// the lines end, or printing fails.
fn record(
    rt: &HostRuntime,
    memory: &mut [u8],
    opening: &Opening,
    lines: &mut Lines<'_>,
    tally: &mut Tally,
) -> io::Result<Left> {
    match Draft::start(memory, &opening.start()) {
        Ok(draft) => {
            let mut draft = draft;
            match make_all(rt, &mut draft, lines, tally) {
                Ok(Ending::End { time }) => print_ended(rt, draft.end(time), tally),
                Ok(Ending::Discard) => {
                    draft.discard();
                    print_discarded(rt, tally)
                }
                Ok(Ending::InputEnds) => {
                    draft.discard();
                    println!(rt; "{:<16} the open draft is discarded", "input ends")?;
                    Ok(Left::Discarded)
                }
                Err(error) => {
                    draft.discard();
                    Err(error)
                }
            }
        }
        Err(refused) => {
            tally.count(false);
            print_row(rt, "answer", NotStarted(refused.fault))?;
            Ok(Left::Refused)
        }
    }
}

/// What is said of memory that has to hold one byte throughout.
fn filled_text(memory: &[u8], byte: u8, words: &'static str) -> &'static str {
    if is_filled(memory, byte) {
        words
    } else {
        "other bytes"
    }
}

/// Lends memory to a draft, and prints what it holds when it comes back.
fn lend(
    rt: &HostRuntime,
    opening: &Opening,
    lines: &mut Lines<'_>,
    tally: &mut Tally,
) -> io::Result<()> {
    let mut memory = vec![in rt.alloc(); LENT; opening.memory]?;
    match record(rt, &mut memory[..], opening, lines, tally)? {
        Left::Refused => print_row(rt, "memory", filled_text(&memory[..], LENT, "as it was"))?,
        Left::Ended => print_block(rt, &memory[..])?,
        Left::Discarded => print_row(rt, "memory", filled_text(&memory[..], 0, "zeros"))?,
    }
    println!(rt; "")
}

/// Begins with a line outside of any draft: only a start can be made there.
fn begin(
    rt: &HostRuntime,
    command: Command,
    lines: &mut Lines<'_>,
    tally: &mut Tally,
) -> io::Result<()> {
    match command {
        Command::Start(opening) => lend(rt, &opening, lines, tally),
        Command::Call(_said) => print_no_draft(rt, tally),
        Command::End { .. } | Command::Discard => print_no_draft(rt, tally),
    }
}

/// Prints that there is no draft for a call.
fn print_no_draft(rt: &HostRuntime, tally: &mut Tally) -> io::Result<()> {
    tally.count(false);
    print_row(rt, "answer", "no draft is open")
}

/// Makes the calls of a text.
pub fn make_calls(rt: &HostRuntime, text: &[u8], tally: &mut Tally) -> io::Result<()> {
    let mut lines = Lines::new(text);
    // A start takes the lines of its draft as well, so the loop is bounded by a count, which no text reaches.
    for _ in 0..u64::MAX {
        let Some(line) = lines.next() else {
            break;
        };
        if let Some(command) = read_line(rt, line, tally)? {
            begin(rt, command, &mut lines, tally)?;
        }
    }
    Ok(())
}
