//! Laws of layers one on the other. Each function is there for its contract.
ghost use Rattle.std.specs.Prelude.{◌≡◌, List, [], ◌∷◌};
ghost use Rattle.layer.specs.Later.{later_edition};
ghost use Rattle.layer.specs.Layers.{Layer, later_layer, piled, Keeps};

use crate::later_edition::LaterEdition;
use readers::otel_util::OtelSpan;

/// A pile of types reads as the pile of its layers: a layer over what is below, and a layer over that.
pub fn types_pile<S: OtelSpan>(one: &LaterEdition<S>, two: &LaterEdition<LaterEdition<S>>)
    ensures one { ⟦<LaterEdition<S> as OtelSpan>⟧.reading one.now ≡ piled (later_layer ∷ []) (S.OtelSpan.reading one.now.below) }
    ensures two { ⟦<LaterEdition<LaterEdition<S>> as OtelSpan>⟧.reading two.now ≡ piled (later_layer ∷ (later_layer ∷ [])) (S.OtelSpan.reading two.now.below.below) }
{}

/// Of any reader: each pile of one or more layers reads as one layer alone, since no earlier name of the table is a
/// later one.
pub fn pile_as_one<S: OtelSpan>(span: &S)
    ensures { (l : Layer) (ls : List Layer) → piled (l ∷ ls) (S.OtelSpan.reading span.now) ≡ later_edition (S.OtelSpan.reading span.now) }
{}

/// Of any reader: a pile of layers keeps all but the texts of database systems.
pub fn pile_keeps<S: OtelSpan>(span: &S)
    ensures { (ls : List Layer) → Keeps (piled ls (S.OtelSpan.reading span.now)) (S.OtelSpan.reading span.now) }
{}
