//! The law of conversions. Each function is there for its contract.
#![tactic(auto)]

ghost use Rattle.conversion_law.specs.Examples.{WorkedExamples, PremisesMet};
ghost use Rattle.conversion_law.specs.ReadExamples.{ReadExamples};
ghost use Rattle.conversion_law.specs.FewRows.{AboveCounts, FewRows};
ghost use Rattle.conversion_law.specs.Law.{ConvertsWhatIsHeld, ConvertsTheSameAlike, ConvertsInAnyOrder, LaterEditionDiffers, ReadsAlike};
ghost use Rattle.conversion_law.specs.Told.{BlocksHold};
ghost use Rattle.conversion_law.specs.StepsAgree.{AnyOrder, ConvertsAlike};
ghost use Rattle.conversion_law.specs.OnceEach.{OnceEach};
ghost use Rattle.conversion_law.specs.LaterDiffers.{LaterDiffers, PilesDiffer, SameResource};
ghost use Rattle.conversion_law.specs.NeverFull.{NeverFull};
ghost use Rattle.conversion_law.specs.IsUnique.{IsUnique, AcceptedIsUnique};
ghost use Rattle.conversion_law.specs.NeverClipped.{NeverClipped};
ghost use Rattle.conversion_law.specs.TextsAreUtf8.{AcceptedIsUtf8, DerivesUtf8, MakesUtf8, ReadsUtf8, SpanIsUtf8};

use readers::otel_util::OtelSpan;

/// What the conversion answers for a draft's block: an accepted span is what the steps make of what the draft holds, and those of
/// drafts that hold the same agree. Where only the order of attributes differs no name is left out. Under a pile of layers a
/// draft's span differs from the one made bare in its name, type and resource at most, and in the arena. Two readers that say the
/// same give the same name, resource, type, service, environment and status code, and every span that is made by them has the same
/// four texts.
pub fn converts_what_was_said<A: OtelSpan, B: OtelSpan>(a: &A, b: &B)
    ensures held { ConvertsWhatIsHeld }
    ensures alike { ConvertsTheSameAlike }
    ensures ordered { ConvertsInAnyOrder }
    ensures edition { LaterEditionDiffers }
    ensures readers { ReadsAlike (A.OtelSpan.reading a.now) (B.OtelSpan.reading b.now) }
{
    blocks_hold();
    converts_alike();
    any_order();
    later_differs();
    never_full();
}

/// Two drafts that hold the same, older names put as later and the attributes of span and resource in any order, in which no pair
/// of names is used doubly and landings are apart: the spans that the steps make of them agree, under every pile of layers.
pub fn converts_alike()
    ensures { ConvertsAlike }
{
    draft_law::holds_what_was_said();
}

/// Two drafts that hold the same but for the order of the attributes of span and resource, landings apart: the spans agree, and
/// meta and metrics have the same entries with no name left out.
pub fn any_order()
    ensures { AnyOrder }
{
    draft_law::holds_what_was_said();
}

/// Of any facts and any reading: the span that is made under the later edition, or under any pile of layers, differs from the one
/// made bare in its name, type and resource at most, and in the arena, which holds them. The resource too is the same.
pub fn later_differs()
    ensures later { LaterDiffers }
    ensures piles { PilesDiffer }
    ensures resource { SameResource }
{}

/// A draft's block is lawful and says what the draft holds, so that the steps make the same of either.
pub fn blocks_hold()
    ensures { BlocksHold }
{
    draft_law::holds_what_was_said();
}

/// No key stands twice among the attributes of the span, of the resource or of the scope that a draft holds.
pub fn once_each()
    ensures { OnceEach }
{}

/// What is counted above a row is the number of rows of its list above it, behind the nearest owner.
pub fn above_counts()
    ensures { AboveCounts }
{}

/// Of a lawful block no list has more than 128 rows, and no event or link more than 128 attributes.
pub fn few_rows()
    ensures { FewRows }
{}

/// Of a lawful block no table is full: with more room than 398 rows of meta the steps make the same span.
pub fn never_full()
    ensures { NeverFull }
{}

/// No key stands twice in meta, in metrics, or among the attributes of a link or an event, in what the steps make and in every
/// accepted span.
pub fn is_unique()
    ensures made { IsUnique }
    ensures accepted { AcceptedIsUnique }
{}

/// All worked examples, of conversions and of what readers derive from a reading, and two spans that differ and meet what the
/// law asks.
pub fn worked_examples()
    ensures examples { WorkedExamples }
    ensures readings { ReadExamples }
    ensures premises { PremisesMet }
{
    draft_law::ok_is_final();
}

/// Of a lawful block no text is clipped: the texts of each attribute's value, its mapped key and the texts of the reading are
/// whole.
pub fn never_clipped()
    ensures { NeverClipped }
{}

/// Of a lawful block every text of the span is UTF-8, under every pile of layers. So are the texts of a lawful block's reading,
/// all that is derived from such a reading, all that the steps make by one, and all of an accepted span.
pub fn texts_are_utf8()
    ensures spans { SpanIsUtf8 }
    ensures readings { ReadsUtf8 }
    ensures derived { DerivesUtf8 }
    ensures made { MakesUtf8 }
    ensures accepted { AcceptedIsUtf8 }
{}
