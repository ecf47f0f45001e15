//! A text as one word, so that columns of texts can be told apart and compared by other programs.
use std::fmt;

/// A text as one word: bytes other than letters, digits and `. _ - / :` as `%` and two hex digits, and
/// the empty text as `~`.
#[derive(Clone, Copy)]
pub struct Token<'a>(pub &'a [u8]);

fn is_plain(b: u8) -> bool {
    b.is_ascii_alphanumeric() || matches!(b, b'.' | b'_' | b'-' | b'/' | b':')
}

impl fmt::Display for Token<'_> {
    fn fmt<W: fmt::Write>(&self, f: &mut fmt::Formatter<W>) -> fmt::Result {
        if self.0.is_empty() {
            return f.write_str("~");
        }
        for b in self.0 {
            if is_plain(*b) {
                f.write_char(char::from(*b))?;
            } else {
                write!(f, "%{b:02X}")?;
            }
        }
        Ok(())
    }
}
