//! Attributes set by values of Rust's own types.
ghost use Rattle.std.specs.Prelude.{◌≡◌, ◌++◌};
ghost use Rattle.lent_bytes.specs.Memory.{written};
ghost use Rattle.lent_bytes.specs.Fields.{bytes8};
ghost use Rattle.blocks.specs.Lists.{list_number};
ghost use Rattle.drafts.specs.Calls.{Set};
ghost use Rattle.drafts.specs.Said.{Made, set_of};

use crate::draft::Draft;
use crate::refusal::{Applied, Refusal};
use blocks::lists::List;
use lent_bytes::fields::Number;
use lent_bytes::memory::{part, write};
use values::elements::DOUBLE_TEXT;
use values::kinds::{ScalarKind, ValueKind};
use values::value::{Double, Scalar};

/// A double's pattern, and then its text.
fn put_double(out: &mut [u8], pattern: u64, text: &[u8])
    ensures { out.new ≡ written out.old 0 (bytes8 pattern ++ text.now) }
{
    pattern.put(out, 0);
    write(out, 8, text);
}

impl<'a> Draft<'a> {
    /// Sets an attribute that is a double. Its bytes are put together in a buffer on the stack.
    fn set_double(&mut self, list: List, key: &[u8], double: Double<'_>) -> Result<Applied, Refusal>
        ensures { Made self.old self.new (Set (list_number list) key.now 2 (bytes8 double.entry.pattern ++ double.entry.text.now)) result }
    {
        let kind = u8::from(ValueKind::Scalar(ScalarKind::F64));
        let Double { pattern, text } = double;
        if text.len() > DOUBLE_TEXT {
            // No double has such a text, and none is empty
            return self.set(u8::from(list), key, kind, b"");
        }
        let mut value = [0; 8 + DOUBLE_TEXT];
        put_double(&mut value, pattern, text);
        self.set(u8::from(list), key, kind, part(&value, 0, 8 + text.len()))
    }

    /// Sets an attribute that is no array. A double has a text of 1 to 400 bytes.
    pub fn set_value(
        &mut self,
        list: List,
        key: &[u8],
        value: Scalar<'_>,
    ) -> Result<Applied, Refusal>
        ensures { Made self.old self.new (set_of (list_number list) key.now value.entry) result }
    {
        let kind = u8::from(ValueKind::Scalar(value.kind()));
        match value {
            Scalar::Bool(flag) => self.set(u8::from(list), key, kind, &[flag as u8]),
            Scalar::I64(n) => self.set(u8::from(list), key, kind, &n.to_le_bytes()),
            Scalar::F64(double) => self.set_double(list, key, double),
            Scalar::String(text) => self.set(u8::from(list), key, kind, text),
        }
    }
}
