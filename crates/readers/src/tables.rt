//! Tables of what stands for a text.
ghost use Rattle.std.specs.Prelude.{◌≡◌};
ghost use Rattle.std.specs.Option.{option_map};
ghost use Rattle.readers.specs.Tables.{entry_for, pairs_of, text_at};

/// A text and what stands for it.
#[derive(Clone, Copy)]
pub struct Entry {
    pub from: &'static [u8],
    pub to: &'static [u8],
}

/// What stands for a text, by the first row that has it.
pub fn find(table: &[Entry], text: &[u8]) -> Option<&'static [u8]>
    ensures { option_map (λ x. x.now) result ≡ entry_for text.now (pairs_of table.now) }
{
    let entry = table.iter().find(|entry| entry.from == text)?;
    Some(entry.to)
}

/// The place of the first row that has a text.
pub fn place_in(table: &[Entry], text: &[u8]) -> Option<usize>
    ensures { option_map (text_at table.now) result ≡ entry_for text.now (pairs_of table.now) }
{
    table.iter().position(|entry| entry.from == text)
}

/// What stands in a row, the empty text past the last.
pub fn text_at(table: &[Entry], i: usize) -> &'static [u8]
    ensures { result.now ≡ text_at table.now i }
{
    if i < table.len() { table[i].to } else { b"" }
}
