//! What a program reads: standard input, or files that its arguments name.
ghost use Rattle.std.specs.Prelude.{◌≡◌, cond, codes};
ghost use Rattle.std.specs.Str.{bytes_eq};
ghost use Rattle.notation.specs.declared.source.Source.TheVariants.{StandardInput, File};

use std::io::Read;
use std::{fmt, fs, io};

/// Where bytes come from.
#[derive(Clone, Copy)]
pub enum Source<'a> {
    StandardInput,
    File(&'a str),
}

impl<'a> Source<'a> {
    /// The source that an argument names: `-` is standard input.
    pub fn named(word: &'a str) -> Source<'a>
        ensures { result ≡ cond (bytes_eq word.now (codes "-")) StandardInput (File word.entry) }
    {
        if word == "-" {
            Source::StandardInput
        } else {
            Source::File(word)
        }
    }

    /// All that is there.
    pub fn read(self, rt: &HostRuntime) -> io::Result<Vec<u8>> {
        match self {
            Source::StandardInput => {
                let mut input = Vec::new(rt.alloc());
                rt.stdin().read_to_end(&mut input)?;
                Ok(input)
            }
            Source::File(name) => fs::read(rt, name),
        }
    }
}

impl fmt::Display for Source<'_> {
    fn fmt<W: fmt::Write>(&self, f: &mut fmt::Formatter<W>) -> fmt::Result {
        match self {
            Source::StandardInput => f.pad("standard input"),
            Source::File(name) => write!(f, "file {name}"),
        }
    }
}
