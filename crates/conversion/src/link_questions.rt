//! Questions on the links of a span. Links and their attributes are counted from 0.
ghost use Rattle.std.specs.Prelude.{◌≡◌, length};
ghost use Rattle.std.specs.Result.{result_ok};
ghost use Rattle.conversion.specs.View.{shown};
ghost use Rattle.conversion.specs.Questions.{meta_answer, link_answer, nth_link, nth_link_count, nth_link_text};

use crate::by_key::{count_by_key, place_by_key};
use crate::dd_span::DdSpan;
use crate::questions::MetaItem;
use blocks::layout::raw_row;
use blocks::lists::{List, Owner};
use blocks::questions::{QuestionFault, list_count, owner_row};
use blocks::row::LinkIds;

/// A link: its ids and flags, and its trace state.
#[derive(Clone, Copy)]
pub struct LinkItem<'s> {
    pub ids: LinkIds,
    pub trace_state: &'s [u8],
}

impl<'b, 'm, 'a> DdSpan<'b, 'm, 'a> {
    /// How many links there are.
    pub fn link_count(&self) -> u16
        ensures { result ≡ length (shown self.now).links }
    {
        list_count(self.made.block, List::Link)
    }

    /// The n-th link.
    pub fn link(&self, n: u16) -> Result<LinkItem<'_>, QuestionFault>
        ensures { link_answer result ≡ nth_link (shown self.now).links n }
    {
        let row = owner_row(self.made.block, Owner::Link, n)?;
        Ok(LinkItem {
            ids: row.link_ids(),
            trace_state: row.key,
        })
    }

    /// How many attributes the n-th link has, by key.
    pub fn link_attribute_count(&self, n: u16) -> Result<u16, QuestionFault>
        ensures { result_ok result ≡ nth_link_count (shown self.now).links n }
    {
        count_by_key(self.made.block, Owner::Link, n).ok_or(QuestionFault::NoSuchItem)
    }

    /// The i-th attribute of the n-th link, by key, as a text.
    pub fn link_attribute(&self, n: u16, i: u16) -> Result<MetaItem<'_>, QuestionFault>
        ensures { meta_answer result ≡ nth_link_text (shown self.now).links n i }
    {
        let block = self.made.block;
        let j = place_by_key(block, Owner::Link, n, i).ok_or(QuestionFault::NoSuchItem)?;
        Ok(MetaItem {
            key: raw_row(block, j).key(block),
            value: self.attribute_text(j),
        })
    }
}
