//! Bytes cut at a byte: into lines, words and elements.
ghost use Rattle.std.specs.Prelude.{◌≡◌, ℕ, List, ◌<◌, ◌≤◌, length, ◌≢◌, slice_index};
ghost use Rattle.notation.specs.Cuts.{Lacks, Joins, FirstWord, is_no_content};
ghost use Rattle.std.specs.Iterator.{at_most};
ghost use Rattle.std.specs.Str.{IsTrimAsciiStart};

/// What stands before the first `b`, and what follows it, if there is one.
pub fn cut(text: &[u8], b: u8) -> (&[u8], Option<&[u8]>)
    ensures lacks { Lacks b result.0.now }
    ensures joins { Joins b text.now result.0.now result.1 }
{
    match text.iter().position(|x| *x == b) {
        Some(n) => (&text[..n], Some(&text[n + 1..])),
        None => (text, None),
    }
}

/// The first word, and what follows the spaces behind it.
pub fn word(text: &[u8]) -> (&[u8], &[u8])
    ensures lacks { Lacks 32 result.0.now }
    ensures word { FirstWord text.now result.0.now result.1.now }
{
    let (word, rest) = cut(text, b' ');
    (word, rest.unwrap_or(b"").trim_ascii_start())
}

/// A line without its end, and its number, from 1 on.
#[derive(Clone, Copy)]
pub struct Line<'a> {
    pub number: u64,
    pub text: &'a [u8],
}

impl Line<'_> {
    /// Whether it says nothing: it is empty or a comment.
    pub fn says_nothing(&self) -> bool
        ensures { (rest : List ℕ) × IsTrimAsciiStart self.now.text.now rest × (result ≡ is_no_content rest) }
    {
        match self.text.trim_ascii_start().first() {
            Some(first) => *first == b'#',
            None => true,
        }
    }
}

/// The lines that are left; the last one may lack its newline.
#[derive(Drop)]
pub struct Lines<'a> {
    read: u64,
    rest: &'a [u8],
}

impl<'a> Lines<'a> {
    pub fn new(input: &'a [u8]) -> Lines<'a>
        ensures { result.rest.now ≡ input.now }
    {
        Lines {
            read: 0,
            rest: input,
        }
    }
}

impl<'a> Iterator for Lines<'a> {
    type Item = Line<'a>;

    ghost remaining = { λ s. at_most (length s.rest.now) };

    fn next(&mut self) -> Option<Line<'a>> {
        if self.rest.is_empty() {
            return None;
        }
        let (text, rest) = cut(self.rest, b'\n');
        self.rest = rest.unwrap_or(b"");
        self.read = self.read.saturating_add(1);
        let number = self.read;
        let text = text.strip_suffix(b"\r").unwrap_or(text);
        Some(Line { number, text })
    }
}
