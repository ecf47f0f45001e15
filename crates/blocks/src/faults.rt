//! Why a block is refused. The fault of a value lies whole inside that of its row, and that inside the
//! block's.
ghost use Rattle.std.specs.Prelude.{◌≡◌, Some, unwrap_or};
ghost use Rattle.blocks.specs.declared.faults.RowFault.TheVariants.{List, Value};
ghost use Rattle.blocks.specs.declared.faults.BlockFault.TheVariants.{Text, Row};
ghost use Rattle.blocks.specs.Answers.{text_number, row_number, row_part, block_number, row_of, faulty_row, part_number, block_part};
ghost use Rattle.blocks.specs.Messages.{text_message, row_message, block_message, part_name};

use crate::lists::UnknownList;
use std::fmt;
use values::check::ValueFault;

/// What is wrong with a header text.
#[derive(Clone, Copy, PartialEq, Eq, Debug)]
pub enum TextFault {
    /// It is too long, or goes beyond the text used.
    Place,
    /// It is not UTF-8.
    NotUtf8,
}

/// What is wrong with a row.
#[derive(Clone, Copy, PartialEq, Eq, Debug)]
pub enum RowFault {
    /// No such list, no event or link above that could own it, or over 128 rows of the list.
    List,
    /// The length or the place of the key.
    Key,
    /// The key is not UTF-8.
    KeyNotUtf8,
    /// The value, its place, or a field that should be zero.
    Value(ValueFault),
    /// The resource has this key already.
    Twice,
}

/// A row's number and what is wrong with it.
#[derive(Clone, Copy, PartialEq, Eq, Debug)]
pub struct RowAt {
    pub row: u16,
    pub fault: RowFault,
}

/// What is wrong with a block.
#[derive(Clone, Copy, PartialEq, Eq, Debug)]
pub enum BlockFault {
    /// Its length is outside 120 to 65,536 bytes.
    Length,
    /// Its version, kind, status, state or zeros.
    Header,
    /// Its capacity, number of rows, text offset or text used.
    Layout,
    /// One of its header texts.
    Text(TextFault),
    /// One of its rows.
    Row(RowAt),
}

/// The part of a block that a fault is about.
#[derive(Clone, Copy, PartialEq, Eq, Debug)]
pub enum Part {
    /// The block as a whole.
    Block,
    /// A header text.
    HeaderText,
    /// The list or the key of a row.
    Key,
    /// The value of a row.
    Value,
}

impl From<UnknownList> for RowFault {
    ghost from_gives = { λ _ r. r ≡ List };

    fn from(_: UnknownList) -> Self {
        Self::List
    }
}

impl From<ValueFault> for RowFault {
    ghost from_gives = { λ f r. r ≡ Value f };

    fn from(f: ValueFault) -> RowFault {
        RowFault::Value(f)
    }
}

impl From<TextFault> for BlockFault {
    ghost from_gives = { λ f r. r ≡ Text f };

    fn from(f: TextFault) -> BlockFault {
        BlockFault::Text(f)
    }
}

impl From<RowAt> for BlockFault {
    ghost from_gives = { λ f r. r ≡ Row f };

    fn from(f: RowAt) -> BlockFault {
        BlockFault::Row(f)
    }
}

/// The number under which this fault is answered.
impl From<TextFault> for u8 {
    ghost from_gives = { λ f n. n ≡ text_number f };

    fn from(fault: TextFault) -> u8 {
        match fault {
            TextFault::Place => 4,
            TextFault::NotUtf8 => 5,
        }
    }
}

/// The number under which this fault is answered.
impl From<RowFault> for u8 {
    ghost from_gives = { λ f n. n ≡ row_number f };

    fn from(fault: RowFault) -> u8 {
        match fault {
            RowFault::List => 6,
            RowFault::Key => 7,
            RowFault::KeyNotUtf8 => 5,
            RowFault::Value(fault) => u8::from(fault),
            RowFault::Twice => 10,
        }
    }
}

/// The number under which this fault is answered.
impl From<BlockFault> for u8 {
    ghost from_gives = { λ f n. n ≡ block_number f };

    fn from(fault: BlockFault) -> u8 {
        match fault {
            BlockFault::Length => 1,
            BlockFault::Header => 2,
            BlockFault::Layout => 3,
            BlockFault::Text(fault) => u8::from(fault),
            BlockFault::Row(at) => u8::from(at.fault),
        }
    }
}

/// The number under which this part is answered.
impl From<Part> for u8 {
    ghost from_gives = { λ part n. n ≡ part_number part };

    fn from(part: Part) -> u8 {
        part as u8
    }
}

impl RowFault {
    /// The part that it is about: the list or key of the row, or its value.
    pub fn part(self) -> Part
        ensures { part_number result ≡ row_part self }
    {
        match self {
            RowFault::Value(_) => Part::Value,
            _ => Part::Key,
        }
    }
}

impl BlockFault {
    /// The number of the row that it is about, if it is about one; where a number has to be answered, 65535 is none.
    pub fn row(self) -> Option<u16>
        ensures row { result ≡ row_of self }
        ensures answered { unwrap_or result 65535 ≡ faulty_row self }
    {
        match self {
            BlockFault::Row(at) => Some(at.row),
            _ => None,
        }
    }

    /// The part of the block that it is about.
    pub fn part(self) -> Part
        ensures { part_number result ≡ block_part self }
    {
        match self {
            BlockFault::Text(_) => Part::HeaderText,
            BlockFault::Row(at) => at.fault.part(),
            _ => Part::Block,
        }
    }
}

impl fmt::Display for TextFault {
    ghost output = { λ f. Some (text_message f) };

    fn fmt<W: fmt::Write>(&self, f: &mut fmt::Formatter<W>) -> fmt::Result {
        f.pad(match self {
            TextFault::Place => "a header text too long or beyond the text used",
            TextFault::NotUtf8 => "not UTF-8",
        })
    }
}

impl fmt::Display for RowFault {
    ghost output = { λ f. Some (row_message f) };

    fn fmt<W: fmt::Write>(&self, f: &mut fmt::Formatter<W>) -> fmt::Result {
        f.pad(match self {
            RowFault::List => "no such list, no owner above, or over 128 rows of the list",
            RowFault::Key => "key length or place",
            RowFault::KeyNotUtf8 => "not UTF-8",
            // Of a row this fault says more than of bytes alone.
            RowFault::Value(ValueFault::Form) => "value form, place or a field that should be zero",
            RowFault::Value(ValueFault::NotUtf8) => "not UTF-8",
            RowFault::Value(ValueFault::TooLong) => "display text over 4,096 bytes",
            RowFault::Twice => "resource key twice",
        })
    }
}

impl fmt::Display for BlockFault {
    ghost output = { λ f. Some (block_message f) };

    fn fmt<W: fmt::Write>(&self, f: &mut fmt::Formatter<W>) -> fmt::Result {
        match self {
            BlockFault::Length => f.pad("length outside 120 to 65,536"),
            BlockFault::Header => f.pad("version, kind, status, state or zeros"),
            BlockFault::Layout => f.pad("capacity, rows, text offset or text used"),
            BlockFault::Text(fault) => fault.fmt(f),
            BlockFault::Row(at) => at.fault.fmt(f),
        }
    }
}

impl fmt::Display for Part {
    ghost output = { λ p. Some (part_name p) };

    fn fmt<W: fmt::Write>(&self, f: &mut fmt::Formatter<W>) -> fmt::Result {
        f.pad(match self {
            Part::Block => "block",
            Part::HeaderText => "header text",
            Part::Key => "list or key of a row",
            Part::Value => "value of a row",
        })
    }
}
