//! What the arguments ask for.
use std::alloc::Global;
use std::{env, io};

/// What is printed besides the summary.
#[derive(Clone, Copy, PartialEq, Eq)]
pub enum Mode {
    /// Each block.
    Show,
    /// Nothing.
    Count,
}

/// What is printed, and the names of what is read.
#[derive(Drop)]
pub struct Request {
    pub mode: Mode,
    pub sources: Vec<String>,
}

impl Request {
    /// The request of the program's arguments: the word `count`, and names. With no name, standard input is read.
    pub fn read(rt: &HostRuntime, heap: Global) -> io::Result<Request> {
        let mut mode = Mode::Show;
        let mut sources = Vec::new(heap);
        for word in env::args(rt)?.skip(1) {
            if word.as_str() == "count" {
                mode = Mode::Count;
            } else {
                sources.push(word)?;
            }
        }
        if sources.is_empty() {
            sources.push(String::from_str(heap, "-")?)?;
        }
        Ok(Request { mode, sources })
    }
}
