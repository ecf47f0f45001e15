//! Texts and numbers that are put under their keys.
ghost use Rattle.std.specs.Prelude.{◌≡◌, ◌≤◌, length};
ghost use Rattle.conversion.specs.Steps.{put_meta, put_again, put_metric};
ghost use Rattle.conversion.specs.Constants.{constant_text};
ghost use Rattle.conversion.specs.Spans.{bytes_of, quoted};
ghost use Rattle.conversion.specs.Digests.{digest};
ghost use Rattle.conversion.specs.Pieces.{piece_end};
ghost use Rattle.conversion.specs.Tables.{place_of, set_meta, push_meta, set_metric, push_metric};
ghost use Rattle.conversion.specs.View.{view, piece_in, given_in, form_in, Made, Does};

use crate::arena::ArenaFull;
use crate::constants::Constant;
use crate::digests::digest;
use crate::pieces::{Form, Given, MetaRow, Metric, Piece, given_bytes, piece_bytes};
use crate::rows::{find_number, find_text};
use crate::unfinished::{METRICS, UnfinishedSpan};

impl<'b, 'm, 'a> UnfinishedSpan<'b, 'm, 'a> {
    /// The place of the text under a key.
    pub(crate) fn find_meta(&self, key: &[u8]) -> Option<usize>
        ensures { result ≡ place_of key.now (view self.now).meta }
    {
        find_text(self.block, self.arena, &self.meta[..self.meta_len], key)
    }

    /// Another text in a row.
    fn set_meta(&mut self, i: usize, value: Piece)
        requires { piece_end value ≤ self.old.used }
        ensures { Made self.old self.new (set_meta i (piece_in self.old value) (view self.old)) }
    {
        if i < self.meta_len {
            let MetaRow { key, digest, .. } = self.meta[i];
            self.meta[i] = MetaRow { key, value, digest };
        }
    }

    /// The digest of a key that the span holds.
    fn digest_of(&self, key: Piece) -> u64
        ensures { result ≡ digest (bytes_of (piece_in self.now key)) }
    {
        digest(piece_bytes(self.block, self.arena, key))
    }

    /// A row behind the others, while there is room.
    fn push_meta(&mut self, key: Piece, value: Piece)
        requires key { piece_end key ≤ self.old.used }
        requires value { piece_end value ≤ self.old.used }
        ensures { Made self.old self.new (push_meta (length self.old.meta.now) (piece_in self.old key) (piece_in self.old value) (view self.old)) }
    {
        let n = self.meta_len;
        let digest = self.digest_of(key);
        if n < self.meta.len() {
            self.meta[n] = MetaRow { key, value, digest };
            self.meta_len = n + 1;
        }
    }

    /// A text under a key, in place of the one that is there. A new key is placed before its text.
    pub(crate) fn put_meta(&mut self, key: Given<'_>, value: Form<'_>) -> Result<(), ArenaFull>
        ensures { Does result self.old self.new (λ n _. put_meta n (given_in self.old key.entry) (form_in self.old value.entry)) }
    {
        match self.find_meta(given_bytes(self.block, key)) {
            Some(i) => {
                let value = self.hold_form(value)?;
                self.set_meta(i, value);
            }
            None => {
                let key = self.hold(key)?;
                let value = self.hold_form(value)?;
                self.push_meta(key, value);
            }
        }
        Ok(())
    }

    /// A text that the span holds already under one of the program's keys, in place of the one that is there.
    pub(crate) fn put_again(&mut self, name: Constant, value: Piece)
        requires { piece_end value ≤ self.old.used }
        ensures { Made self.old self.new (put_again (length self.old.meta.now) (quoted (constant_text name)) (piece_in self.old value) (view self.old)) }
    {
        match self.find_meta(name.bytes()) {
            Some(i) => self.set_meta(i, value),
            None => self.push_meta(Piece::Constant(name), value),
        }
    }

    /// The place of the number under a key.
    pub(crate) fn find_metric(&self, key: &[u8]) -> Option<usize>
        ensures { result ≡ place_of key.now (view self.now).metrics }
    {
        find_number(
            self.block,
            self.arena,
            &self.metrics[..self.metrics_len],
            key,
        )
    }

    /// Another number in a row.
    fn set_metric(&mut self, i: usize, pattern: u64)
        ensures { Made self.old self.new (set_metric i pattern (view self.old)) }
    {
        if i < self.metrics_len {
            let key = self.metrics[i].key;
            self.metrics[i] = Metric { key, pattern };
        }
    }

    /// A row behind the others, while there is room.
    fn push_metric(&mut self, key: Piece, pattern: u64)
        requires { piece_end key ≤ self.old.used }
        ensures { Made self.old self.new (push_metric (piece_in self.old key) pattern (view self.old)) }
    {
        let n = self.metrics_len;
        if n < METRICS {
            self.metrics[n] = Metric { key, pattern };
            self.metrics_len = n + 1;
        }
    }

    /// A number under a key, in place of the one that is there. A new key is placed.
    pub(crate) fn put_metric(&mut self, key: Given<'_>, pattern: u64) -> Result<(), ArenaFull>
        ensures { Does result self.old self.new (λ _ _. put_metric (given_in self.old key.entry) pattern) }
    {
        match self.find_metric(given_bytes(self.block, key)) {
            Some(i) => self.set_metric(i, pattern),
            None => {
                let key = self.hold(key)?;
                self.push_metric(key, pattern);
            }
        }
        Ok(())
    }
}
