//! Texts at the front of lent memory.
ghost use Rattle.std.specs.Prelude.{◌≡◌, ◌≤◌, length, min, take};
ghost use Rattle.lent_bytes.specs.Memory.{padded, Placed};

use crate::memory::{clear_from, write};

/// Writes a text to the front of lent memory, push by push: each goes behind the text so far, as much of it as
/// fits.
#[derive(Drop)]
pub struct TextWriter<'a> {
    memory: &'a mut [u8],
    len: usize,
    pub ghost inside: { len ≤ length memory.now },
}

impl<'a> TextWriter<'a> {
    ghost use Rattle.lent_bytes.specs.Writing.{Wrote};

    /// At the front of the memory.
    pub fn new(memory: &'a mut [u8]) -> TextWriter<'a>
        ensures len { result.len ≡ 0 }
        ensures memory { result.memory.now ≡ memory.old }
        ensures named { result.memory.ghost_name ≡ memory.entry.ghost_name }
    {
        TextWriter { memory, len: 0 }
    }

    /// Behind the first `n` bytes of the memory, which count as text.
    pub fn behind(memory: &'a mut [u8], n: usize) -> TextWriter<'a>
        ensures len { result.len ≡ min n (length memory.old) }
        ensures memory { result.memory.now ≡ memory.old }
        ensures named { result.memory.ghost_name ≡ memory.entry.ghost_name }
    {
        let len = n.min(memory.len());
        TextWriter { memory, len }
    }

    /// How long the text is.
    pub fn len(&self) -> usize
        ensures { result ≡ self.now.len }
    {
        let TextWriter { len, .. } = self;
        *len
    }

    /// Writes `more` behind the text so far.
    pub fn push(&mut self, more: &[u8])
        ensures { Wrote self.old self.new more.now }
    {
        let k = more.len().min(self.memory.len() - self.len);
        write(self.memory, self.len, more);
        self.len += k;
    }

    /// Zeros behind the text; answers its length.
    pub fn finish(self) -> usize
        ensures len { result ≡ self.entry.len }
        ensures text { self.exit.0.now ≡ padded (length self.entry.memory.now) (take self.entry.len self.entry.memory.now) }
    {
        let TextWriter { memory, len } = self;
        clear_from(memory, len);
        len
    }
}

/// A whole text at the front of `out`, clipped, zeros behind.
pub fn write_text(out: &mut [u8], text: &[u8]) -> usize
    ensures { Placed (length out.old) text.now result out.new }
{
    let mut writer = TextWriter::new(out);
    writer.push(text);
    writer.finish()
}
