//! What a caller of the conversion knows.
ghost use Rattle.std.specs.Prelude.{◌≡◌, length};
ghost use Rattle.std.specs.Result.{result_err};
ghost use Rattle.blocks.specs.Facts.{facts};
ghost use Rattle.span_args.specs.ReadingOf.{reading_of};
ghost use Rattle.conversion.specs.Steps.{steps};
ghost use Rattle.conversion.specs.Answers.{answer};

use blocks::sdk_span::SdkSpan;
use conversion::convert::otel_span_to_dd_span;
use conversion::pieces::MetaRow;
use span_args::span_extract_args::SpanExtractArgs;

/// The number under which the conversion of the span in a block is refused.
pub fn refusal(block: &[u8], meta: &mut [MetaRow], arena: &mut [u8]) -> Option<u8>
    ensures { result ≡ result_err (answer (length meta.old) (length arena.old) (steps (length meta.old) (facts block.now) (reading_of (facts block.now)))) }
{
    let span = SdkSpan::of_ended(block);
    let reader = SpanExtractArgs::new(&span);
    match otel_span_to_dd_span(span, &reader, meta, arena) {
        Ok(_converted) => None,
        Err(refused) => Some(u8::from(refused.fault)),
    }
}
