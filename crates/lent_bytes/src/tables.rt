//! Tables of texts.
ghost use Rattle.std.specs.Prelude.{◌≡◌, [], map, slice_index_or};
ghost use Rattle.lent_bytes.specs.Lookup.{index_from};

/// The text at `i` of a table, the empty one past its end.
pub fn text_at<'a>(table: &[&'a [u8]], i: usize) -> &'a [u8]
    ensures { result.now ≡ slice_index_or (map (λ x. x.now) table.now) i [] }
{
    table.get(i).copied().unwrap_or(b"")
}

/// Where `key` stands first in a table.
pub fn index_of(table: &[&[u8]], key: &[u8]) -> Option<usize>
    ensures { result ≡ index_from 0 key.now (map (λ x. x.now) table.now) }
{
    table.iter().position(|text| *text == key)
}
