//! Writes into a draft's memory: rows, texts of the header, and counts.
ghost use Rattle.std.specs.Prelude.{◌≡◌, ◌^◌, ◌<◌, ◌≤◌, ◌++◌, length, take};
ghost use Rattle.lent_bytes.specs.Memory.{written};
ghost use Rattle.lent_bytes.specs.Fields.{bytes4, bytes8};
ghost use Rattle.drafts.specs.Code.{numbers_of, zeros};
ghost use Rattle.drafts.specs.Writes.{row_bytes, rowed, headed, drop_more};

use lent_bytes::fields::Number;
use lent_bytes::memory::write;

/// What a row says: its key, and its value with its kind, which is the number that was sent, and its time.
#[derive(Clone, Copy)]
pub(crate) struct Entry<'t> {
    pub key: &'t [u8],
    pub kind: u8,
    pub value: &'t [u8],
    pub time: i64,
}

/// What a row is to hold, number by number. A length or a place is written in as many bytes as the row has for it.
#[derive(Clone, Copy)]
pub(crate) struct RowNumbers {
    pub list: u8,
    pub kind: u8,
    pub key_length: usize,
    pub key_place: usize,
    pub value_length: usize,
    pub value_place: usize,
    pub time: i64,
}

/// The low bytes of a number.
pub(crate) fn low<const N: usize>(n: usize) -> [u8; N]
    requires { N ≤ 8 }
    ensures { result ≡ take N (bytes8 n) }
{
    let mut out = [0; N];
    out.copy_from_slice(&n.to_le_bytes()[..N]);
    out
}

/// The 24 bytes of a row.
fn row_bytes(row: RowNumbers) -> [u8; 24]
    ensures { result ≡ row_bytes (numbers_of row) }
{
    let n = low::<2>(row.key_length);
    let k = low::<4>(row.key_place);
    let l = low::<4>(row.value_length);
    let v = low::<4>(row.value_place);
    let t = row.time.to_le_bytes();
    [
        row.list, row.kind, n[0], n[1], k[0], k[1], k[2], k[3], l[0], l[1], l[2], l[3], v[0], v[1],
        v[2], v[3], t[0], t[1], t[2], t[3], t[4], t[5], t[6], t[7],
    ]
}

/// Writes two texts, one behind the other.
pub(crate) fn put_texts(m: &mut [u8], at: usize, first: &[u8], second: &[u8])
    requires { at < 2 ^ 40 }
    ensures { m.new ≡ written m.old at (first.now ++ second.now) }
{
    write(m, at, first);
    write(m, at + first.len(), second);
}

/// Writes the row `j`, the number of rows, and two texts, one behind the other, behind the text in use. The
/// header has four bytes for the text in use, so the sum of lengths may wrap.
pub(crate) fn put_row(
    m: &mut [u8],
    j: u16,
    rows: usize,
    row: RowNumbers,
    first: &[u8],
    second: &[u8],
)
    ensures { m.new ≡ rowed m.old j rows (numbers_of row) (first.now ++ second.now) }
{
    let used = u32::read(m, 12) as usize;
    let at = u32::read(m, 4) as usize + used;
    let bytes = row_bytes(row);
    write(m, 120 + 24 * j as usize, &bytes);
    put_texts(m, at, first, second);
    let count = low::<2>(rows);
    write(m, 2, &count);
    let end = low::<4>((used + first.len()).wrapping_add(second.len()));
    write(m, 12, &end);
}

/// Writes the place and the length of a header text at `at`.
pub(crate) fn put_place(m: &mut [u8], at: usize, place: usize, len: usize)
    ensures { m.new ≡ written m.old at (bytes4 place ++ bytes4 len) }
{
    let p = low::<4>(place);
    let n = low::<4>(len);
    write(m, at, &[p[0], p[1], p[2], p[3], n[0], n[1], n[2], n[3]]);
}

/// Writes a text behind the text in use, and its place and length at `at`.
pub(crate) fn put_head(m: &mut [u8], at: usize, text: &[u8])
    ensures { m.new ≡ headed m.old at text.now }
{
    let used = u32::read(m, 12) as usize;
    let from = u32::read(m, 4) as usize + used;
    write(m, from, text);
    put_place(m, at, used, text.len());
    let end = low::<4>(used + text.len());
    write(m, 12, &end);
}

/// Raises the count at `at` by one, up to what four bytes hold.
pub(crate) fn count_one(m: &mut [u8], at: usize)
    ensures { m.new ≡ drop_more m.old at }
{
    let n = u32::read(m, at);
    n.saturating_add(1).put(m, at);
}

/// Zeros in all of `m`.
pub(crate) fn clear(m: &mut [u8])
    ensures { m.new ≡ zeros (length m.old) }
{
    m.fill(0);
}
