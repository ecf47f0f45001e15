//! Texts at the front of the memory that a reader wrote them to.
ghost use Rattle.std.specs.Prelude.{◌≡◌, ◌≤◌, ◌==◌, [], map, length};
ghost use Rattle.std.specs.Char.{to_ascii_lowercase};
ghost use Rattle.std.specs.Option.{MatchOption};
ghost use Rattle.lent_bytes.specs.Memory.{portion};
ghost use Rattle.readers.specs.Texts.{Filled};

use lent_bytes::memory::part;
use lent_bytes::texts::TextWriter;
use names::case::to_lower_case;

/// A text as a reader gives it, in memory that was handed to it: at most 4,096 bytes.
#[derive(Clone, Copy)]
pub struct Text<'t> {
    pub bytes: &'t [u8],
    pub ghost short: { length bytes.now ≤ 4096 },
}

/// The length of a text that was found; where none was, zeros in all memory.
pub(crate) fn or_clear(found: Option<usize>, out: &mut [u8; 4096]) -> usize
    ensures { MatchOption found (Filled 4096 [] result out.new) (λ n. (result ≡ n) × (out.new ≡ out.old)) }
{
    match found {
        Some(n) => n,
        None => TextWriter::new(out).finish(),
    }
}

impl<'t> Text<'t> {
    /// The empty text.
    pub fn empty() -> Text<'t>
        ensures { result.bytes.now ≡ [] }
    {
        Text { bytes: b"" }
    }

    /// The first `n` bytes of a reader's memory, which is of a fixed size: nothing is allocated.
    pub fn front(memory: &'t [u8; 4096], n: usize) -> Text<'t>
        ensures { result.bytes.now ≡ portion memory.now 0 n }
    {
        let bytes = part(memory, 0, n);
        Text { bytes }
    }

    /// The first `n` bytes in lower case, made so where they stand.
    pub fn lower_front(memory: &'t mut [u8; 4096], n: usize) -> Text<'t>
        ensures { result.bytes.now ≡ map to_ascii_lowercase (portion memory.old 0 n) }
    {
        let at = n.min(4096);
        to_lower_case(&mut memory[0..at]);
        let bytes = part(memory, 0, at);
        Text { bytes }
    }

    /// Whether it has no bytes.
    pub fn is_empty(self) -> bool
        ensures { result ≡ (length self.entry.bytes.now == 0) }
    {
        self.bytes.is_empty()
    }
}
