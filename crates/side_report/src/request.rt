//! The command line.
use crate::sides::Rows;
use clap::{Arg, ArgAction, ArgMatches, Command};
use notation::source::Source;
use std::alloc::{AllocError, Global};
use std::fmt;

const ABOUT: &str =
    "Compares two spans as Datadog gets them: converts two blocks and prints the two spans beside each \
other, value by value, once as they are and once under the later edition of the conventions.";

const BEHIND: &str = "\
LEFT and RIGHT are files, each with one block, binary or as a line of hex digits, or `-` for the next line with a
block of standard input. Empty lines and lines that begin with `#` are passed over. With no names both blocks come
from standard input.

Each row begins with a mark, and has what the left span holds and what the right one holds:
    the same
  ! differs
  < only the left span has it
  > only the right span has it
  ~ not the same, under one of the ten names that change between the editions of the conventions: there two spans
    that hold the same facts, one under older and one under later names, may differ
A row that is too long continues on the next line. Fields, links and events stand at their places, meta and metrics
under their keys. A link or an event counts once, whatever of it differs.

Exit status:
  0  the two spans agree: nothing differs but under the ten names, in all that was asked
  1  they differ
  2  a block could not be read, opened or converted, or the arguments are wrong

Example:
  side_by_side --differences commuter-load.block track-load.block";

/// The command.
pub(crate) fn command<'a>(heap: Global) -> Result<Command<'a>, AllocError> {
    let bare = Arg::new(heap, "bare")
        .long("bare")
        .action(ArgAction::SetTrue)
        .help("Only as they are")
        .conflicts_with("later")?;
    let later = Arg::new(heap, "later")
        .long("later")
        .action(ArgAction::SetTrue)
        .help("Only under the later edition");
    let differences = Arg::new(heap, "differences")
        .long("differences")
        .action(ArgAction::SetTrue)
        .help("Only rows that are not the same");
    let left = Arg::new(heap, "LEFT")
        .help("The block at the left")
        .default_value("-");
    let right = Arg::new(heap, "RIGHT")
        .help("The block at the right")
        .default_value("-");
    Command::new(heap, "side_by_side")
        .version("1.0")
        .about(ABOUT)
        .after_help(BEHIND)
        .arg(bare)?
        .arg(later)?
        .arg(differences)?
        .arg(left)?
        .arg(right)
}

/// How spans are read.
#[derive(Clone, Copy, PartialEq, Eq, Debug)]
pub(crate) enum Edition {
    /// As they are.
    Bare,
    /// Under the layer for the later edition of the conventions.
    Later,
}

impl fmt::Display for Edition {
    fn fmt<W: fmt::Write>(&self, f: &mut fmt::Formatter<W>) -> fmt::Result {
        f.pad(match self {
            Edition::Bare => "as they are",
            Edition::Later => "under the later edition",
        })
    }
}

/// What the arguments ask for.
#[derive(Clone, Copy)]
pub(crate) struct Request<'a> {
    pub(crate) bare: bool,
    pub(crate) later: bool,
    pub(crate) rows: Rows,
    pub(crate) left: Source<'a>,
    pub(crate) right: Source<'a>,
}

impl<'a> Request<'a> {
    /// What matches of the command ask for.
    pub(crate) fn new(matches: &ArgMatches<'a>) -> Request<'a> {
        Request {
            bare: !matches.get_flag("later"),
            later: !matches.get_flag("bare"),
            rows: if matches.get_flag("differences") {
                Rows::Apart
            } else {
                Rows::All
            },
            left: Source::named(matches.get_str("LEFT").unwrap_or("-")),
            right: Source::named(matches.get_str("RIGHT").unwrap_or("-")),
        }
    }
}
