//! A row of the print: a mark, what it is about, and what stands at the left and at the right. What is too long for its
//! column continues on the next line.
use crate::mark::Mark;
use std::fmt;
use std::str::Chars;

/// How many characters the name of a row has on a line, and how many each side.
const NAME_WIDTH: usize = 32;

const SIDE_WIDTH: usize = 36;

/// What stands in a row; a side that has nothing is empty.
#[derive(Drop)]
pub(crate) struct Row {
    pub(crate) mark: Mark,
    pub(crate) name: String,
    pub(crate) left: String,
    pub(crate) right: String,
}

/// How many lines a text takes in a column.
fn lines_of(text: &str, width: usize) -> usize {
    if width == 0 {
        return 0;
    }
    text.chars().count().div_ceil(width)
}

/// The next characters of a text, filled up with spaces.
fn write_cell<W: fmt::Write>(
    f: &mut fmt::Formatter<W>,
    text: &mut Chars<'_>,
    width: usize,
) -> fmt::Result {
    for _ in 0..width {
        f.write_char(text.next().unwrap_or(' '))?;
    }
    Ok(())
}

/// The next characters of a text at the end of a line, behind a space if there are any.
fn write_last<W: fmt::Write>(
    f: &mut fmt::Formatter<W>,
    text: &mut Chars<'_>,
    width: usize,
) -> fmt::Result {
    for i in 0..width {
        if let Some(c) = text.next() {
            if i == 0 {
                f.write_char(' ')?;
            }
            f.write_char(c)?;
        }
    }
    Ok(())
}

impl fmt::Display for Row {
    fn fmt<W: fmt::Write>(&self, f: &mut fmt::Formatter<W>) -> fmt::Result {
        let lines = lines_of(self.name.as_str(), NAME_WIDTH)
            .max(lines_of(self.left.as_str(), SIDE_WIDTH))
            .max(lines_of(self.right.as_str(), SIDE_WIDTH));
        let mut name = self.name.as_str().chars();
        let mut left = self.left.as_str().chars();
        let mut right = self.right.as_str().chars();
        for _ in 0..lines {
            f.write_char(self.mark.char())?;
            f.write_char(' ')?;
            write_cell(f, &mut name, NAME_WIDTH)?;
            f.write_char(' ')?;
            write_cell(f, &mut left, SIDE_WIDTH)?;
            f.write_str(" |")?;
            write_last(f, &mut right, SIDE_WIDTH)?;
            f.write_char('\n')?;
        }
        Ok(())
    }
}
