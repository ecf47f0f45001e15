//! What the arguments ask for.
use std::alloc::Global;
use std::{env, io};

/// How spans are read.
#[derive(Clone, Copy, PartialEq, Eq)]
pub enum Edition {
    /// As they are.
    Bare,
    /// Under the layer for the later edition of the conventions.
    Later,
}

/// The name of what blocks are read from, and how their spans are read.
#[derive(Drop)]
pub struct Asked {
    pub edition: Edition,
    pub name: String,
}

/// What the program's arguments ask for: names, of which those behind the word `later` are read under the later edition.
/// With no name, standard input is read.
pub fn requests(rt: &HostRuntime, heap: Global) -> io::Result<Vec<Asked>> {
    let mut edition = Edition::Bare;
    let mut asked = Vec::new(heap);
    for word in env::args(rt)?.skip(1) {
        if word.as_str() == "later" {
            edition = Edition::Later;
        } else {
            asked.push(Asked {
                edition,
                name: word,
            })?;
        }
    }
    if asked.is_empty() {
        asked.push(Asked {
            edition,
            name: String::from_str(heap, "-")?,
        })?;
    }
    Ok(asked)
}
