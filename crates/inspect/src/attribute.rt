//! A line as an attribute: its key and its value.
use notation::cut::word;
use notation::fault::LineFault;
use notation::written::Written;
use std::alloc::Global;

#[derive(Drop)]
pub struct Attribute<'a> {
    pub key: &'a [u8],
    pub value: Written,
}

impl<'a> Attribute<'a> {
    /// The attribute that a line writes as `KEY KIND VALUE`.
    pub fn parse(heap: Global, line: &'a [u8]) -> Result<Attribute<'a>, LineFault> {
        let (key, rest) = word(line);
        let value = Written::parse(heap, rest)?;
        Ok(Attribute { key, value })
    }
}
