//! The lists that rows belong to.
ghost use Rattle.std.specs.Prelude.{◌≡◌, Some};
ghost use Rattle.blocks.specs.Lists.{list_number, ListRead, plain_number, owner_list, owned_list};
ghost use Rattle.blocks.specs.Names.{list_name};

use std::fmt;

/// The list that a row belongs to.
#[derive(Clone, Copy, PartialEq, Eq, Debug)]
pub enum List {
    Span,
    Resource,
    Scope,
    Event,
    EventAttribute,
    Link,
    LinkAttribute,
}

/// A number that names no list: all from 7 on.
#[derive(Clone, Copy, PartialEq, Eq, Debug)]
pub struct UnknownList;

impl TryFrom<u8> for List {
    type Error = UnknownList;

    ghost try_from_gives = { ListRead };

    fn try_from(n: u8) -> Result<List, UnknownList> {
        match n {
            0 => Ok(List::Span),
            1 => Ok(List::Resource),
            2 => Ok(List::Scope),
            3 => Ok(List::Event),
            4 => Ok(List::EventAttribute),
            5 => Ok(List::Link),
            6 => Ok(List::LinkAttribute),
            _ => Err(UnknownList),
        }
    }
}

impl From<List> for u8 {
    ghost from_gives = { λ list n. n ≡ list_number list };

    fn from(list: List) -> u8 {
        list as u8
    }
}

/// The lists of attributes that belong to no event or link.
#[derive(Clone, Copy, PartialEq, Eq, Debug)]
pub enum PlainList {
    Span,
    Resource,
    Scope,
}

impl From<PlainList> for List {
    ghost from_gives = { λ plain list. list_number list ≡ plain_number plain };

    fn from(plain: PlainList) -> List {
        match plain {
            PlainList::Span => List::Span,
            PlainList::Resource => List::Resource,
            PlainList::Scope => List::Scope,
        }
    }
}

/// What has attributes of its own: they stand behind it and above the next of its list. Of its two lists each is a
/// question of its own: a pair would be taken apart at every call.
#[derive(Clone, Copy, PartialEq, Eq, Debug)]
pub enum Owner {
    Event,
    Link,
}

impl Owner {
    /// The list that it stands in.
    pub fn list(self) -> List
        ensures { list_number result ≡ owner_list self }
    {
        match self {
            Owner::Event => List::Event,
            Owner::Link => List::Link,
        }
    }

    /// The list of its attributes.
    pub fn owned(self) -> List
        ensures { list_number result ≡ owned_list self }
    {
        match self {
            Owner::Event => List::EventAttribute,
            Owner::Link => List::LinkAttribute,
        }
    }
}

impl fmt::Display for List {
    ghost output = { λ l. Some (list_name l) };

    fn fmt<W: fmt::Write>(&self, f: &mut fmt::Formatter<W>) -> fmt::Result {
        f.pad(match self {
            List::Span => "span",
            List::Resource => "resource",
            List::Scope => "scope",
            List::Event => "event",
            List::EventAttribute => "event attribute",
            List::Link => "link",
            List::LinkAttribute => "link attribute",
        })
    }
}
