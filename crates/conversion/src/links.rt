//! The texts of links' attributes, which lie in the arena in the order of the rows.
ghost use Rattle.std.specs.Prelude.{◌≡◌, ◌&&◌, ◌==◌};
ghost use Rattle.blocks.specs.Facts.{facts, row_fact};
ghost use Rattle.conversion.specs.LinkTexts.{link_text, or_link};
ghost use Rattle.conversion.specs.Steps.{links};
ghost use Rattle.conversion.specs.View.{Does, placing};

use crate::arena::ArenaFull;
use crate::forms::string_form;
use crate::unfinished::UnfinishedSpan;
use blocks::layout::{is_in, raw_row};
use blocks::lists::List;
use lent_bytes::fields::Number;

/// Whether the rows below the row `i` stand below a link.
pub(crate) fn or_link(below: bool, block: &[u8], i: u16) -> bool
    ensures { result ≡ or_link below (row_fact block.now i) }
{
    below || is_in(block, List::Link, i)
}

/// Whether the row `i` is an attribute of a link.
pub(crate) fn is_attribute(below: bool, block: &[u8], i: u16) -> bool
    ensures { result ≡ (below && (row_fact block.now i).list == 6) }
{
    below && is_in(block, List::LinkAttribute, i)
}

impl<'b, 'm, 'a> UnfinishedSpan<'b, 'm, 'a> {
    /// The text of the row `i`, if it is an attribute of a link.
    fn link_row(&mut self, below: bool, i: u16) -> Result<(), ArenaFull>
        ensures { Does result self.old self.new (λ _ b. placing (link_text below (row_fact b i))) }
    {
        let block = self.block;
        if !is_attribute(below, block, i) {
            return Ok(());
        }
        let form = string_form(block, raw_row(block, i));
        self.hold_form(form)?;
        Ok(())
    }

    /// The texts of all links' attributes.
    pub(crate) fn links(&mut self) -> Result<(), ArenaFull>
        ensures { Does result self.old self.new (λ _ b. links (facts b)) }
    {
        let mut below = false;
        for i in 0..u16::read(self.block, 2) {
            self.link_row(below, i)?;
            below = or_link(below, self.block, i);
        }
        Ok(())
    }
}
