//! How long it takes to open a block. What is opened goes to standard output, which is compared; the
//! times go to standard error, since they differ from run to run.
#![tactic(auto)]

ghost use Rattle.std.specs.Prelude.{◌≤◌};

use blocks::lists::List;
use blocks::sdk_span::open;
use lent_bytes::fields::Number;
use lent_bytes::memory::{part, write};
use std::time::Instant;
use timing::{PerByte, nanos_a_turn};

/// A block of so many attributes in each of its three plain lists, and so many events with 127 attributes each. Keys
/// are of equal length and differ in their last two bytes alone, so that each comparison goes to the end.
#[derive(Clone, Copy)]
struct Shape {
    name: &'static str,
    each: u16,
    events: u16,
    /// How many keys there are: fewer than rows where lists have keys in common.
    keys: u16,
    key: u16,
}

const SHAPES: [Shape; 5] = [
    Shape {
        name: "empty",
        each: 0,
        events: 0,
        keys: 0,
        key: 1,
    },
    Shape {
        name: "small",
        each: 4,
        events: 0,
        keys: 12,
        key: 16,
    },
    Shape {
        name: "middle",
        each: 40,
        events: 0,
        keys: 120,
        key: 60,
    },
    Shape {
        name: "full",
        each: 128,
        events: 0,
        keys: 384,
        key: 120,
    },
    Shape {
        name: "widest",
        each: 128,
        events: 5,
        keys: 128,
        key: 255,
    },
];

/// The lists that the rows belong to, in turn.
const PLAIN_LISTS: [List; 3] = [List::Span, List::Resource, List::Scope];

/// An event stands before every 127 attributes of its own.
const EVENT_ROWS: u16 = 128;

/// How often a block is opened.
const TURNS: u32 = 200;

impl Shape {
    /// The rows of the events and their attributes. They come first, since a resource key is looked for in all rows
    /// above.
    fn under_events(self) -> u16
        ensures { result ≤ 640 }
    {
        self.events.min(5) * EVENT_ROWS
    }

    fn rows(self) -> u16
        ensures { result ≤ 1024 }
    {
        self.under_events() + self.each.min(128) * 3
    }

    /// The list of a row.
    fn list(self, i: u16) -> List {
        match i.checked_sub(self.under_events()) {
            Some(i) => PLAIN_LISTS[i as usize % 3],
            None if i % EVENT_ROWS == 0 => List::Event,
            None => List::EventAttribute,
        }
    }

    /// A key with its value of 8 bytes.
    fn text(self) -> u32
        ensures { result ≤ 263 }
    {
        self.key.min(255) as u32 + 8
    }
}

/// Writes the row `i`; its key and value stand at `text`.
fn put_row(m: &mut [u8], i: u16, list: List, text: u32, key: u16) {
    let at = 120 + 24 * i as usize;
    write(m, at, &[u8::from(list)]);
    key.put(m, at + 2);
    text.put(m, at + 4);
    // An event has neither kind nor value.
    if list != List::Event {
        write(m, at + 1, &[1]);
        8u32.put(m, at + 8);
        text.saturating_add(key as u32).put(m, at + 12);
    }
}

/// Writes a key at `at`.
fn put_key(m: &mut [u8], at: u32, i: u16, key: u16) {
    let at = at as usize;
    write(m, at, part(&[b'k'; 255], 0, key as usize));
    let last = [b'a' + (i / 26 % 26) as u8, b'a' + (i % 26) as u8];
    write(m, at + (key as usize).saturating_sub(2), &last);
}

/// Writes the block, and answers its length.
fn put_block(m: &mut [u8], shape: Shape) -> usize {
    let rows = shape.rows();
    let keys = shape.keys.min(rows).max(1);
    let size = shape.text();
    let offset = 120 + 24 * rows as u32;
    let used = if rows == 0 { 0 } else { size * keys as u32 };
    1u16.put(m, 0);
    rows.put(m, 2);
    offset.put(m, 4);
    rows.put(m, 8);
    write(m, 10, &[2, 0]);
    used.put(m, 12);
    write(m, 76, &[1]);
    let key = shape.key.min(255);
    for i in 0..rows {
        let text = size * (i % keys) as u32;
        put_row(m, i, shape.list(i), text, key);
        put_key(m, offset + text, i % keys, key);
    }
    (offset + used) as usize
}

fn times_accepted(block: &[u8]) -> usize {
    (0..TURNS).filter(|_| open(block).is_ok()).count()
}

fn print_shape(rt: &HostRuntime, shape: Shape) -> anyhow::Result<()> {
    let mut memory = vec![in rt.alloc(); 0u8; 65536]?;
    let bytes = put_block(&mut memory[..], shape);
    let block = part(&memory[..], 0, bytes);
    let start = Instant::now(rt)?;
    let accepted = times_accepted(block);
    let nanos = nanos_a_turn(start.elapsed(rt)?, TURNS);
    let name = shape.name;
    let rows = shape.rows();
    println!(rt; "{name:<6} {bytes:>6} bytes, {rows:>4} rows: accepted {accepted} times")?;
    let per_byte = PerByte { nanos, bytes };
    eprintln!(rt; "{name:<6} {bytes:>6} bytes, {rows:>4} rows: {nanos:>8} ns, {per_byte}")?;
    Ok(())
}

fn main(rt: HostRuntime) -> anyhow::Result<()> {
    for shape in SHAPES {
        print_shape(&rt, shape)?;
    }
    Ok(())
}
