//! Questions on the single fields of a span.
ghost use Rattle.std.specs.Prelude.{◌≡◌};
ghost use Rattle.conversion.specs.Spans.{bytes_of};
ghost use Rattle.conversion.specs.View.{shown};

use crate::dd_span::DdSpan;
use crate::pieces::piece_bytes;

impl<'b, 'm, 'a> DdSpan<'b, 'm, 'a> {
    /// The service.
    pub fn service(&self) -> &[u8]
        ensures { result.now ≡ bytes_of (shown self.now).service }
    {
        piece_bytes(self.made.block, self.made.arena, self.made.head.service)
    }

    /// The name of the operation.
    pub fn name(&self) -> &[u8]
        ensures { result.now ≡ bytes_of (shown self.now).name }
    {
        piece_bytes(self.made.block, self.made.arena, self.made.head.name)
    }

    /// The resource.
    pub fn resource(&self) -> &[u8]
        ensures { result.now ≡ bytes_of (shown self.now).resource }
    {
        piece_bytes(self.made.block, self.made.arena, self.made.head.resource)
    }

    /// The type of the span.
    pub fn span_type(&self) -> &[u8]
        ensures { result.now ≡ bytes_of (shown self.now).type }
    {
        piece_bytes(self.made.block, self.made.arena, self.made.head.span_type)
    }

    /// The lower half of the trace id.
    pub fn trace_id(&self) -> u64
        ensures { result ≡ (shown self.now).trace_id }
    {
        self.made.head.trace_id
    }

    /// The span's id.
    pub fn span_id(&self) -> u64
        ensures { result ≡ (shown self.now).span_id }
    {
        self.made.head.span_id
    }

    /// The id of the span above.
    pub fn parent_id(&self) -> u64
        ensures { result ≡ (shown self.now).parent_id }
    {
        self.made.head.parent_id
    }

    /// When it started, in nanoseconds since 1970.
    pub fn start(&self) -> i64
        ensures { result ≡ (shown self.now).start }
    {
        self.made.head.start
    }

    /// How long it took, in nanoseconds.
    pub fn duration(&self) -> i64
        ensures { result ≡ (shown self.now).duration }
    {
        self.made.head.duration
    }

    /// 0 where it is no error.
    pub fn error(&self) -> i32
        ensures { result ≡ (shown self.now).error }
    {
        self.made.head.error
    }
}
