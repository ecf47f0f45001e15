//! Where the blocks come from.
use notation::cut::Lines;
use notation::hex::read_bytes;
use notation::report::NotRead;
use notation::source::Source;
use span_report::origin::Origin;
use std::fmt;

/// A block, and where it stands.
#[derive(Drop)]
pub(crate) struct Block<'a> {
    pub(crate) origin: Origin<'a>,
    pub(crate) bytes: Vec<u8>,
}

impl fmt::Display for Block<'_> {
    fn fmt<W: fmt::Write>(&self, f: &mut fmt::Formatter<W>) -> fmt::Result {
        match self.origin {
            Origin::Line(number) => write!(f, "line {number} of standard input"),
            Origin::File(name) => write!(f, "file {name}"),
        }
    }
}

/// Whether these bytes are text: a block begins with the byte 1, and text has none below 9.
fn is_text(bytes: &[u8]) -> bool {
    !bytes.iter().any(|b| *b < 9)
}

/// The block in the next line of hex digits; none, and why is printed, if there is no such line.
fn next_block<'a>(
    rt: &HostRuntime,
    source: Source<'a>,
    lines: &mut Lines<'_>,
) -> anyhow::Result<Option<Block<'a>>> {
    let Some(line) = lines.find(|line| !line.says_nothing()) else {
        println!(rt; "{source} has no line with a block left")?;
        return Ok(None);
    };
    let number = line.number;
    match read_bytes(rt.alloc(), line.text.trim_ascii()) {
        Ok(bytes) => {
            let origin = match source {
                Source::StandardInput => Origin::Line(number),
                Source::File(name) => Origin::File(name),
            };
            Ok(Some(Block { origin, bytes }))
        }
        Err(fault) => {
            println!(rt; "{source}")?;
            print!(rt;
                "{}",
                NotRead {
                    line: number,
                    fault
                }
            )?;
            Ok(None)
        }
    }
}

/// The block of a file, or that of the next line of standard input; none, and why is printed, if it cannot be read.
pub(crate) fn read_block<'a>(
    rt: &HostRuntime,
    source: Source<'a>,
    input: &mut Lines<'_>,
) -> anyhow::Result<Option<Block<'a>>> {
    let Source::File(name) = source else {
        return next_block(rt, source, input);
    };
    let bytes = match source.read(rt) {
        Ok(bytes) => bytes,
        Err(error) => {
            println!(rt; "{source} not read: {error}")?;
            return Ok(None);
        }
    };
    if is_text(bytes.as_slice()) {
        let mut lines = Lines::new(bytes.as_slice());
        return next_block(rt, source, &mut lines);
    }
    let origin = Origin::File(name);
    Ok(Some(Block { origin, bytes }))
}
