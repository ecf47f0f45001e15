//! Texts that are placed in the arena of a span.
ghost use Rattle.std.specs.Prelude.{◌≡◌, ◌≤◌, IfOk, length};
ghost use Rattle.conversion.specs.declared.pieces.Piece.{Piece};
ghost use Rattle.lent_bytes.specs.Memory.{clip, written};
ghost use Rattle.values.specs.Format.{meant};
ghost use Rattle.values.specs.Shown.{datum_text};
ghost use Rattle.conversion.specs.Spans.{placed, bytes_of};
ghost use Rattle.conversion.specs.Pieces.{piece_text, piece_end};
ghost use Rattle.conversion.specs.View.{piece_in, given_in, form_in, Does, placing, holding, joined};

use crate::forms::written;
use crate::pieces::{Form, Given, Piece, piece_bytes};
use crate::unfinished::UnfinishedSpan;
use lent_bytes::memory::write;
use values::show::TEXT_BYTES;
use values::value::Value;

/// A text does not fit the arena.
#[derive(Clone, Copy, PartialEq, Eq, Debug)]
pub struct ArenaFull;

/// Copies a text behind the first `used` bytes of an arena, which hold it.
fn write_again(block: &[u8], arena: &mut [u8], used: usize, piece: Piece)
    requires held { piece_end piece ≤ used }
    requires room { used ≤ length arena.old }
    ensures { arena.new ≡ written arena.old used (bytes_of (piece_text block.now arena.old piece)) }
{
    let (held, rest) = arena.split_at_mut(used);
    write(rest, 0, piece_bytes(block, held, piece));
}

impl<'b, 'm, 'a> UnfinishedSpan<'b, 'm, 'a> {
    /// Copies a text behind what the arena holds.
    pub(crate) fn place(&mut self, text: &[u8]) -> Result<Piece, ArenaFull>
        ensures step { Does result self.old self.new (λ _ _. placing text.now) }
        ensures text { IfOk result (λ p. piece_in self.new p ≡ placed text.now) }
        ensures held { IfOk result (λ p. piece_end p ≤ self.new.used) }
        ensures grown { self.old.used ≤ self.new.used }
        ensures texts { (p : Piece) → piece_end p ≤ self.old.used → piece_in self.new p ≡ piece_in self.old p }
    {
        let place = self.used;
        let len = text.len();
        if len > self.arena.len() - place {
            return Err(ArenaFull);
        }
        write(self.arena, place, text);
        self.used = place + len;
        Ok(Piece::Arena { place, len })
    }

    /// A text that is given, placed if it has to be.
    pub(crate) fn hold(&mut self, given: Given<'_>) -> Result<Piece, ArenaFull>
        ensures step { Does result self.old self.new (λ _ _. holding (given_in self.old given.entry)) }
        ensures text { IfOk result (λ p. piece_in self.new p ≡ given_in self.old given.entry) }
        ensures held { IfOk result (λ p. piece_end p ≤ self.new.used) }
        ensures grown { self.old.used ≤ self.new.used }
        ensures texts { (p : Piece) → piece_end p ≤ self.old.used → piece_in self.new p ≡ piece_in self.old p }
    {
        match given {
            Given::Quoted(constant) => Ok(Piece::Constant(constant)),
            Given::Lent { place, len } => Ok(Piece::Block { place, len }),
            Given::Placed(t) => self.place(t),
        }
    }

    /// A value's display text, placed.
    #[inline(never)]
    fn place_shown(&mut self, value: &Value<'_>, quotes: bool) -> Result<Piece, ArenaFull>
        ensures step { Does result self.old self.new (λ _ _. placing (clip 4096 (datum_text quotes (meant value.now)))) }
        ensures text { IfOk result (λ p. piece_in self.new p ≡ placed (clip 4096 (datum_text quotes (meant value.now)))) }
        ensures held { IfOk result (λ p. piece_end p ≤ self.new.used) }
        ensures grown { self.old.used ≤ self.new.used }
        ensures texts { (p : Piece) → piece_end p ≤ self.old.used → piece_in self.new p ≡ piece_in self.old p }
    {
        let mut out = [0u8; TEXT_BYTES];
        let text = written(value, quotes, &mut out);
        self.place(text)
    }

    /// A row's value, placed if it has to be.
    pub(crate) fn hold_form(&mut self, form: Form<'_>) -> Result<Piece, ArenaFull>
        ensures step { Does result self.old self.new (λ _ _. holding (form_in self.old form.entry)) }
        ensures text { IfOk result (λ p. piece_in self.new p ≡ form_in self.old form.entry) }
        ensures held { IfOk result (λ p. piece_end p ≤ self.new.used) }
        ensures grown { self.old.used ≤ self.new.used }
        ensures texts { (p : Piece) → piece_end p ≤ self.old.used → piece_in self.new p ≡ piece_in self.old p }
    {
        match form {
            Form::Ready(given) => self.hold(given),
            Form::Shown { value, quotes } => self.place_shown(&value, quotes),
        }
    }

    /// How long a text is.
    fn piece_len(&self, piece: Piece) -> usize
        ensures { result ≡ length (bytes_of (piece_in self.now piece)) }
    {
        piece_bytes(self.block, self.arena, piece).len()
    }

    /// Copies a text that the span holds behind what the arena holds.
    pub(crate) fn place_again(&mut self, piece: Piece) -> Result<(), ArenaFull>
        requires { piece_end piece ≤ self.old.used }
        ensures step { Does result self.old self.new (λ _ _. placing (bytes_of (piece_in self.old piece))) }
        ensures grown { self.old.used ≤ self.new.used }
        ensures texts { (p : Piece) → piece_end p ≤ self.old.used → piece_in self.new p ≡ piece_in self.old p }
    {
        let place = self.used;
        let len = self.piece_len(piece);
        if len > self.arena.len() - place {
            return Err(ArenaFull);
        }
        write_again(self.block, self.arena, place, piece);
        self.used = place + len;
        Ok(())
    }

    /// Two texts that the span holds with a space between them, placed as one.
    pub(crate) fn place_joined(&mut self, a: Piece, b: Piece) -> Result<Piece, ArenaFull>
        requires a { piece_end a ≤ self.old.used }
        requires b { piece_end b ≤ self.old.used }
        ensures step { Does result self.old self.new (λ _ _. placing (joined (piece_in self.old a) (piece_in self.old b))) }
        ensures text { IfOk result (λ p. piece_in self.new p ≡ placed (joined (piece_in self.old a) (piece_in self.old b))) }
        ensures held { IfOk result (λ p. piece_end p ≤ self.new.used) }
    {
        let place = self.used;
        self.place_again(a)?;
        self.place(b" ")?;
        self.place_again(b)?;
        Ok(Piece::Arena {
            place,
            len: self.used - place,
        })
    }
}
