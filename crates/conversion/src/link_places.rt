//! Where the texts of links' attributes lie: those that are placed stand in the arena one behind another, row by row.
ghost use Rattle.std.specs.Prelude.{◌≡◌, ℕ, List, ◌≤◌, false, length};
ghost use Rattle.blocks.specs.Facts.{row_fact, fact_at, facts_from};
ghost use Rattle.blocks.specs.Layout.{raw_of};
ghost use Rattle.blocks.specs.declared.lists.Owner.TheVariants.{Link};
ghost use Rattle.span_args.specs.ReadingOf.{datum_at};
ghost use Rattle.conversion.specs.ByKey.{IsUnder};
ghost use Rattle.conversion.specs.Forms.{string_form};
ghost use Rattle.conversion.specs.LinkTexts.{ReadAt, link_text, link_texts};
ghost use Rattle.lent_bytes.specs.Memory.{clip};
ghost use Rattle.values.specs.Format.{meant};
ghost use Rattle.values.specs.Shown.{datum_text};
ghost use Rattle.conversion.specs.Pieces.{form_text};
ghost use Rattle.conversion.specs.Spans.{arena_for, bytes_of};

use crate::dd_span::DdSpan;
use crate::forms::{string_form, written};
use crate::links::{is_attribute, or_link};
use crate::pieces::{Form, Given, Piece, piece_bytes};
use blocks::layout::{RawRow, raw_row};
use values::show::TEXT_BYTES;
use values::value::Value;

/// How long a value's display text is that is placed.
#[inline(never)]
fn shown_len(value: &Value<'_>, quotes: bool) -> usize
    ensures { result ≡ length (clip 4096 (datum_text quotes (meant value.now))) }
{
    let mut out = [0u8; TEXT_BYTES];
    written(value, quotes, &mut out).len()
}

/// How many bytes of the arena a text takes.
fn form_len(form: Form<'_>) -> usize
    ensures { (b : List ℕ) → result ≡ length (arena_for (form_text b form.entry)) }
{
    match form {
        Form::Ready(Given::Placed(text)) => text.len(),
        Form::Ready(Given::Quoted(_)) => 0,
        Form::Ready(Given::Lent { .. }) => 0,
        Form::Shown { value, quotes } => shown_len(&value, quotes),
    }
}

/// How many bytes of the arena a row's value takes as a text.
fn placed_len(block: &[u8], row: RawRow) -> usize
    ensures len { result ≡ length (arena_for (string_form (datum_at (fact_at block.now (raw_of row))))) }
    ensures few { result ≤ 4096 }
{
    form_len(string_form(block, row))
}

/// How many the row `i` takes, if it is an attribute of a link.
fn link_len(below: bool, block: &[u8], i: u16) -> usize
    ensures len { result ≡ length (link_text below (row_fact block.now i)) }
    ensures few { result ≤ 4096 }
{
    if is_attribute(below, block, i) {
        placed_len(block, raw_row(block, i))
    } else {
        0
    }
}

/// How many the attributes of links take that stand above the row `j`.
fn len_above(block: &[u8], j: u16) -> usize
    ensures { result ≡ length (link_texts false (facts_from block.now 0 j)) }
{
    let mut below = false;
    let mut len = 0;
    for i in 0..j {
        len += link_len(below, block, i);
        below = or_link(below, block, i);
    }
    len
}

/// Where a text lies that was given: in the arena from `at` on, if it was placed.
fn piece_at(form: Form<'_>, at: usize) -> Piece
    ensures { ReadAt at form.entry result }
{
    match form {
        Form::Ready(Given::Quoted(constant)) => Piece::Constant(constant),
        Form::Ready(Given::Lent { place, len }) => Piece::Block { place, len },
        Form::Ready(Given::Placed(text)) => Piece::Arena {
            place: at,
            len: text.len(),
        },
        Form::Shown { value, quotes } => Piece::Arena {
            place: at,
            len: shown_len(&value, quotes),
        },
    }
}

impl<'b, 'm, 'a> DdSpan<'b, 'm, 'a> {
    /// The value of the row `j`, an attribute of a link, as a text.
    pub(crate) fn attribute_text(&self, j: u16) -> &[u8]
        requires { IsUnder self.now.made.block.now Link j }
        ensures { result.now ≡ bytes_of (string_form (datum_at (row_fact self.now.made.block.now j))) }
    {
        let block = self.made.block;
        let at = self.links_at + len_above(block, j);
        let form = string_form(block, raw_row(block, j));
        let piece = piece_at(form, at);
        piece_bytes(block, self.made.arena, piece)
    }
}
