//! The error that the status says, and its texts.
ghost use Rattle.std.specs.Prelude.{◌≡◌, ◌≤◌, IfSome, codes, pos, Some};
ghost use Rattle.std.specs.Option.{option_map};
ghost use Rattle.blocks.specs.Facts.{facts};
ghost use Rattle.conversion.specs.Spans.{quoted, placed, found};
ghost use Rattle.conversion.specs.Pieces.{piece_end};
ghost use Rattle.conversion.specs.Events.{all_events};
ghost use Rattle.conversion.specs.Steps.{put_meta, each, exception, or_other, code_message, other_message, said_message, message, is_error, with_error, by_status, all_told, last_error};
ghost use Rattle.conversion.specs.View.{view, piece_in, given_in, Made, Does, joined};

use crate::arena::ArenaFull;
use crate::attributes::is_empty;
use crate::constants::Constant;
use crate::forms::{description_form, is_error};
use crate::pieces::{Form, Given, Piece, given_bytes};
use crate::unfinished::UnfinishedSpan;
use blocks::header;

/// Whether the status is an error.
fn has_error(block: &[u8]) -> bool
    ensures { result ≡ is_error (facts block.now).status }
{
    is_error(header::status(block))
}

impl<'b, 'm, 'a> UnfinishedSpan<'b, 'm, 'a> {
    /// The status code of HTTP.
    fn code(&self) -> Option<Piece>
        ensures text { option_map (piece_in self.now) result ≡ or_other (found (codes "http.response.status_code") (view self.now).meta) (found (codes "http.status_code") (view self.now).meta) }
        ensures held { IfSome result (λ p. piece_end p ≤ self.now.used) }
    {
        match self.found_meta(b"http.response.status_code") {
            Some(code) => Some(code),
            None => self.found_meta(b"http.status_code"),
        }
    }

    /// A code and a text as the message of the error.
    fn put_joined(&mut self, code: Piece, text: Piece) -> Result<(), ArenaFull>
        requires code { piece_end code ≤ self.old.used }
        requires text { piece_end text ≤ self.old.used }
        ensures { Does result self.old self.new (λ n _. put_meta n (quoted (codes "error.message")) (placed (joined (piece_in self.old code) (piece_in self.old text)))) }
    {
        let both = self.place_joined(code, text)?;
        self.put_again(Constant::ErrorMessage, both);
        Ok(())
    }

    /// A code as the message of the error, and the text of the status, if there is one.
    fn code_message(&mut self, code: Piece) -> Result<(), ArenaFull>
        requires { piece_end code ≤ self.old.used }
        ensures { Does result self.old self.new (λ n _ s. code_message n (Some (piece_in self.old code)) (found (codes "http.status_text") s.meta) s) }
    {
        match self.found_meta(b"http.status_text") {
            Some(text) => self.put_joined(code, text),
            None => {
                self.put_again(Constant::ErrorMessage, code);
                Ok(())
            }
        }
    }

    /// What HTTP says, as the message of the error.
    fn other_message(&mut self) -> Result<(), ArenaFull>
        ensures { Does result self.old self.new (λ n _. other_message n) }
    {
        match self.code() {
            Some(code) => self.code_message(code),
            None => Ok(()),
        }
    }

    /// A text as the message of the error, or else what HTTP says.
    fn said_message(&mut self, said: Given<'_>) -> Result<(), ArenaFull>
        ensures { Does result self.old self.new (λ n _. said_message n (given_in self.old said.entry)) }
    {
        if is_empty(given_bytes(self.block, said)) {
            return self.other_message();
        }
        self.put_meta(Given::Quoted(Constant::ErrorMessage), Form::Ready(said))
    }

    /// The message of the error, unless there is one: what the status says, or else what HTTP says.
    fn message(&mut self) -> Result<(), ArenaFull>
        ensures { Does result self.old self.new (λ n b. message n (facts b)) }
    {
        if self.has_meta(b"error.message") {
            return Ok(());
        }
        let said = description_form(self.block);
        self.said_message(said)
    }

    /// The texts of an error: what exceptions say, and a message.
    fn error_texts(&mut self) -> Result<(), ArenaFull>
        ensures { Does result self.old self.new (λ n b s. message n (facts b) (each (exception n) (all_events b) s)) }
    {
        self.exceptions()?;
        self.message()
    }

    fn set_error(&mut self, error: i32)
        ensures { Made self.old self.new (with_error error (view self.old)) }
    {
        self.head.error = error;
    }

    /// An error and its texts.
    fn status_error(&mut self) -> Result<(), ArenaFull>
        ensures { Does result self.old self.new (λ n b s. with_error (pos 1) (message n (facts b) (each (exception n) (all_events b) s))) }
    {
        self.error_texts()?;
        self.set_error(1);
        Ok(())
    }

    /// The error that the status says.
    fn by_status(&mut self) -> Result<(), ArenaFull>
        ensures { Does result self.old self.new (λ n b. by_status n (facts b)) }
    {
        if has_error(self.block) {
            return self.status_error();
        }
        self.set_error(0);
        Ok(())
    }

    /// Whether an error's three texts are there.
    fn all_told(&self) -> bool
        ensures { result ≡ all_told (view self.now) }
    {
        self.has_meta(b"error.message")
            && (self.has_meta(b"error.type") && self.has_meta(b"error.stack"))
    }

    /// The error that the status says, unless its three texts are there.
    pub(crate) fn last_error(&mut self) -> Result<(), ArenaFull>
        ensures { Does result self.old self.new (λ n b. last_error n (facts b)) }
    {
        if self.all_told() {
            return Ok(());
        }
        self.by_status()
    }
}
