//! Texts as they are printed: one line of valid UTF-8, whatever bytes they have.
#![tactic(auto)]

ghost use Rattle.std.specs.Prelude.{◌≡◌, ◌<◌, ◌≤◌, ◌&&◌, ◌||◌, length, ◌==◌, nat_le, nat_lt};

use std::fmt;
use std::str::from_utf8;

/// The most bytes of a text that are printed.
const PRINTED: usize = 72;

/// A text with its control characters and backslashes escaped, and all but ASCII where it is not UTF-8;
/// of a long text the front and the length.
#[derive(Clone, Copy)]
pub struct Escaped<'a>(pub &'a [u8]);

/// Whether a byte stands inside of a character of UTF-8.
fn continues(b: u8) -> bool
    ensures { result ≡ nat_le 128 b && nat_lt b 192 }
{
    b >= 0x80 && b < 0xc0
}

/// Where to cut a text of over 72 bytes, so that no character is split.
fn printed_len(text: &[u8]) -> usize
    ensures within { result ≤ length text.now }
    ensures short { length text.now ≤ 72 → result ≡ length text.now }
    ensures long { 72 < length text.now → (69 ≤ result) × (result ≤ 72) }
{
    if text.len() <= PRINTED {
        return text.len();
    }
    (PRINTED - 2..PRINTED + 1)
        .rev()
        .find(|end| !continues(text[*end]))
        .unwrap_or(PRINTED - 3)
}

fn write_escape<W: fmt::Write>(f: &mut fmt::Formatter<W>, b: u8) -> fmt::Result {
    match b {
        b'\n' => f.write_str("\\n"),
        b'\\' => f.write_str("\\\\"),
        _ => write!(f, "\\x{b:02x}"),
    }
}

/// Whether a character is printed by its bytes: a control character or a backslash.
fn is_escaped(c: char) -> bool
    ensures { result ≡ nat_lt c 32 || (nat_le 127 c && nat_lt c 160) || (c == 92) }
{
    c.is_control() || c == '\\'
}

fn write_char<W: fmt::Write>(f: &mut fmt::Formatter<W>, c: char) -> fmt::Result {
    if !is_escaped(c) {
        return f.write_char(c);
    }
    let mut buffer = [0u8; 4];
    for b in c.encode_utf8(&mut buffer).bytes() {
        write_escape(f, b)?;
    }
    Ok(())
}

fn write_byte<W: fmt::Write>(f: &mut fmt::Formatter<W>, b: u8) -> fmt::Result {
    if b >= 0x80 {
        write_escape(f, b)
    } else {
        write_char(f, char::from(b))
    }
}

fn write_bytes<W: fmt::Write>(f: &mut fmt::Formatter<W>, text: &[u8]) -> fmt::Result {
    match from_utf8(text) {
        Ok(text) => {
            for c in text.chars() {
                write_char(f, c)?;
            }
        }
        Err(_) => {
            for b in text {
                write_byte(f, *b)?;
            }
        }
    }
    Ok(())
}

/// A text with the same escapes, however long it is, so that texts that differ are printed differently.
#[derive(Clone, Copy)]
pub struct Whole<'a>(pub &'a [u8]);

impl fmt::Display for Whole<'_> {
    fn fmt<W: fmt::Write>(&self, f: &mut fmt::Formatter<W>) -> fmt::Result {
        if self.0.is_empty() {
            return f.write_str("(no bytes)");
        }
        write_bytes(f, self.0)
    }
}

impl fmt::Display for Escaped<'_> {
    fn fmt<W: fmt::Write>(&self, f: &mut fmt::Formatter<W>) -> fmt::Result {
        let len = self.0.len();
        if len == 0 {
            return f.write_str("(no bytes)");
        }
        let printed = printed_len(self.0);
        write_bytes(f, &self.0[0..printed])?;
        if printed < len {
            write!(f, "... ({len} bytes)")?;
        }
        Ok(())
    }
}
