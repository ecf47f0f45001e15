//! A reader of another kind: a name alone, with no block behind it.
ghost use Rattle.reader_examples.specs.BareReading.{bare};

use blocks::span_kind::SpanKind;
use lent_bytes::texts::{TextWriter, write_text};
use names::attribute_keys::AttributeKey;
use readers::otel_util::OtelSpan;

/// A span that has a name and no attributes.
#[derive(Clone, Copy)]
pub struct Bare {
    pub name: &'static [u8],
}

impl OtelSpan for Bare {
    ghost reading = { λ b. bare b.name.now };

    fn name(&self, out: &mut [u8; 4096]) -> usize {
        write_text(out, self.name)
    }

    fn span_kind(&self) -> SpanKind {
        SpanKind::Internal
    }

    fn has_attr(&self, _key: AttributeKey) -> bool {
        false
    }

    fn has_res_attr(&self, _key: AttributeKey) -> bool {
        false
    }

    fn get_attr_str_opt(&self, _key: AttributeKey, out: &mut [u8; 4096]) -> Option<usize> {
        TextWriter::new(out).finish();
        None
    }

    fn get_attr_num(&self, _key: AttributeKey) -> Option<i64> {
        None
    }

    fn get_res_attribute_opt(&self, _key: AttributeKey, out: &mut [u8; 4096]) -> Option<usize> {
        TextWriter::new(out).finish();
        None
    }
}
