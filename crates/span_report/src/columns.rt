//! What is printed in a column, filled up with spaces.
use std::fmt;
use std::fmt::Write;

/// Counts the characters that are written into it.
#[derive(Drop)]
struct Width {
    characters: usize,
}

impl fmt::Write for Width {
    fn write_str(&mut self, text: &str) -> fmt::Result {
        self.characters = self.characters.saturating_add(text.chars().count());
        Ok(())
    }
}

/// A value at the left of a column. A format's width fills up behind text alone, so the value is written twice, and
/// counted the first time.
#[derive(Clone, Copy)]
pub struct InColumn<D> {
    pub value: D,
    pub width: usize,
}

impl<D: fmt::Display + Copy> fmt::Display for InColumn<D> {
    fn fmt<W: fmt::Write>(&self, f: &mut fmt::Formatter<W>) -> fmt::Result {
        let value = self.value;
        let mut written = Width { characters: 0 };
        write!(written, "{value}")?;
        write!(f, "{value}")?;
        f.write_repeated(" ", self.width.saturating_sub(written.characters))
    }
}
