//! Strings in double quotes, with escapes.
ghost use Rattle.std.specs.Prelude.{◌≡◌, ◌<◌, [], length, IfOk, Ok, Err, MatchResult};
ghost use Rattle.notation.specs.declared.quoted.Place.TheVariants.{Plain};
ghost use Rattle.notation.specs.Faults.{OrMemory};
ghost use Rattle.notation.specs.Strings.{move_of, string_from, quoted_in};

use crate::fault::LineFault;
use crate::hex;
use std::alloc::Global;

/// Where in a string its next byte stands.
#[derive(Clone, Copy)]
enum Place {
    Plain,
    /// Behind a backslash.
    Escape,
    /// Behind `\x`.
    High,
    /// Behind `\x` and this digit.
    Low(u8),
}

/// What a byte of a string's text comes to.
#[derive(Clone, Copy)]
enum Move {
    /// It begins an escape, or goes on with one.
    Into(Place),
    /// It ends this byte of the string.
    Byte(u8),
    /// It is the closing quote.
    Close,
}

fn step(place: Place, b: u8) -> Result<Move, LineFault>
    ensures { result ≡ move_of place b }
{
    match place {
        Place::Plain => match b {
            b'"' => Ok(Move::Close),
            b'\\' => Ok(Move::Into(Place::Escape)),
            _ => Ok(Move::Byte(b)),
        },
        Place::Escape => match b {
            b'\\' | b'"' => Ok(Move::Byte(b)),
            b'n' => Ok(Move::Byte(b'\n')),
            b'x' => Ok(Move::Into(Place::High)),
            _ => Err(LineFault::UnknownEscape),
        },
        Place::High => Ok(Move::Into(Place::Low(b))),
        Place::Low(high) => hex::byte(high, b)
            .map(Move::Byte)
            .ok_or(LineFault::BadByteEscape),
    }
}

/// A string, and what follows its closing quote.
#[derive(Drop)]
pub struct Quoted<'a> {
    pub bytes: Vec<u8>,
    pub rest: &'a [u8],
}

impl<'a> Quoted<'a> {
    /// The string whose text follows the opening quote.
    fn behind_quote(heap: Global, text: &'a [u8]) -> Result<Quoted<'a>, LineFault>
        ensures reads { MatchResult result (λ q. string_from Plain [] text.now ≡ Ok (q.bytes.items, q.rest.now)) (λ f. OrMemory f (string_from Plain [] text.now ≡ Err f)) }
        ensures shorter { IfOk result (λ q. length q.rest.now < length text.now) }
    {
        let mut bytes = Vec::new(heap);
        let mut place = Place::Plain;
        for (i, b) in text.iter().enumerate() {
            match step(place, *b)? {
                Move::Into(next) => place = next,
                Move::Byte(b) => {
                    bytes.push(b)?;
                    place = Place::Plain;
                }
                Move::Close => {
                    let rest = &text[i + 1..];
                    return Ok(Quoted { bytes, rest });
                }
            }
        }
        Err(LineFault::NoQuote)
    }

    /// The string in quotes at the front of `text`.
    pub fn parse(heap: Global, text: &'a [u8]) -> Result<Quoted<'a>, LineFault>
        ensures reads { MatchResult result (λ q. quoted_in text.now ≡ Ok (q.bytes.items, q.rest.now)) (λ f. OrMemory f (quoted_in text.now ≡ Err f)) }
        ensures shorter { IfOk result (λ q. length q.rest.now < length text.now) }
    {
        let inside = text.strip_prefix(b"\"").ok_or(LineFault::NoQuote)?;
        Quoted::behind_quote(heap, inside)
    }
}
