//! Where the known keys stand in a list of attributes.
ghost use Rattle.std.specs.Prelude.{◌≡◌, map, replicate, Some, None, slice_index_or, slice_set};
ghost use Rattle.std.specs.Option.{option_map};
ghost use Rattle.names.specs.Keys.{keys, key_at, known};
ghost use Rattle.names.specs.Places.{LastExactly, last_place, noted};

use crate::attribute_keys::{AttributeKey, NUMBER_OF_ATTRIBUTES, get_attribute_idx};

/// For each known key, where it stands in a list of attributes.
#[derive(Clone, Copy, Debug)]
pub struct AttributeIndices {
    places: [Option<usize>; NUMBER_OF_ATTRIBUTES],
}

impl Default for AttributeIndices {
    ghost is_default = { λ r. r.places ≡ replicate 43 None };

    fn default() -> AttributeIndices {
        AttributeIndices {
            places: [None; NUMBER_OF_ATTRIBUTES],
        }
    }
}

// Writes `place` at `at`; past the end there is nothing to write. With `get_mut` on the array the proof did not close:
// what an element of an array that is a field becomes is not followed.
fn put(places: &mut [Option<usize>], at: usize, place: usize)
    ensures { places.new ≡ slice_set places.old at (Some place) }
{
    if at < places.len() {
        places[at] = Some(place);
    }
}

impl AttributeIndices {
    /// Notes that `key` stands at `place`.
    pub fn set(&mut self, key: AttributeKey, place: usize)
        ensures { self.new.places ≡ slice_set self.old.places key.idx (Some place) }
    {
        put(&mut self.places, key.place(), place);
    }

    /// Where `key` stands, if it does.
    pub fn get(&self, key: AttributeKey) -> Option<usize>
        ensures { result ≡ slice_index_or self.now.places key.idx None }
    {
        self.places.get(key.place()).copied().flatten()
    }

    /// Notes that these bytes stand at `place`, if they are a known key's.
    pub fn note(&mut self, key: &[u8], place: usize)
        ensures { self.new.places ≡ noted (option_map key_at (known key.now)) place self.old.places }
    {
        if let Some(found) = get_attribute_idx(key) {
            self.set(found, place);
        }
    }

    /// Where each known key stands in the list of the attributes' keys: of several places the last.
    pub fn from_keys(attributes: &[&[u8]]) -> AttributeIndices
        ensures { result.places ≡ map (λ k. last_place k (map (λ x. x.now) attributes.now)) keys }
    {
        let mut indices = AttributeIndices::default();
        for (i, key) in attributes.iter().enumerate() {
            indices.note(*key, i);
        }
        indices
    }
}

/// What is noted of a key is the last place at which its bytes stand, and nothing just where they stand nowhere.
pub fn last_exactly()
    ensures { LastExactly }
{}
