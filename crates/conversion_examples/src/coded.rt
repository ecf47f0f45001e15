//! A reader of another kind: a status code of HTTP and an environment, with no block behind it.
ghost use Rattle.std.specs.Prelude.{◌≡◌, ◌==◌};
ghost use Rattle.readers.specs.Places.{http_response_status_code, deployment_environment_name};
ghost use Rattle.conversion_examples.specs.CodedReading.{coded};

use blocks::span_kind::SpanKind;
use lent_bytes::texts::{TextWriter, write_text};
use names::attribute_keys::{AttributeKey, DEPLOYMENT_ENVIRONMENT_NAME, HTTP_RESPONSE_STATUS_CODE};
use readers::otel_util::OtelSpan;

/// A span that has the status code 404, whose resource has the environment `workshop`, and no more.
#[derive(Clone, Copy)]
pub struct Coded;

/// Whether a key is that of the status code.
fn is_code(key: AttributeKey) -> bool
    ensures { result ≡ (key.idx == http_response_status_code) }
{
    key == HTTP_RESPONSE_STATUS_CODE
}

/// Whether a key is that of the environment.
fn is_environment(key: AttributeKey) -> bool
    ensures { result ≡ (key.idx == deployment_environment_name) }
{
    key == DEPLOYMENT_ENVIRONMENT_NAME
}

impl OtelSpan for Coded {
    ghost reading = { λ _. coded };

    fn name(&self, out: &mut [u8; 4096]) -> usize {
        write_text(out, b"")
    }

    fn span_kind(&self) -> SpanKind {
        SpanKind::Internal
    }

    fn has_attr(&self, key: AttributeKey) -> bool {
        is_code(key)
    }

    fn has_res_attr(&self, key: AttributeKey) -> bool {
        is_environment(key)
    }

    fn get_attr_str_opt(&self, key: AttributeKey, out: &mut [u8; 4096]) -> Option<usize> {
        if is_code(key) {
            return Some(write_text(out, b"404"));
        }
        TextWriter::new(out).finish();
        None
    }

    fn get_attr_num(&self, key: AttributeKey) -> Option<i64> {
        is_code(key).then_some(404)
    }

    fn get_res_attribute_opt(&self, key: AttributeKey, out: &mut [u8; 4096]) -> Option<usize> {
        if is_environment(key) {
            return Some(write_text(out, b"workshop"));
        }
        TextWriter::new(out).finish();
        None
    }
}
