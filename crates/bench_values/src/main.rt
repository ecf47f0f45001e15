//! How long the check and the display text of a value take. The cases and what they add up to go to
//! standard output, which is compared; the times go to standard error, since they differ from run to
//! run.
#![tactic(auto)]

use std::alloc::{AllocError, Global};
use std::time::Instant;
use timing::{PerByte, nanos_a_turn};
use values::check::check;
use values::kinds::{ScalarKind, ValueKind};
use values::show::display_text;

/// Values of one kind: `unit` over and over.
#[derive(Clone, Copy)]
struct Case {
    name: &'static str,
    kind: ValueKind,
    unit: &'static [u8],
}

const CASES: [Case; 5] = [
    Case {
        name: "string",
        kind: ValueKind::Scalar(ScalarKind::String),
        unit: b"abcdefgh",
    },
    Case {
        name: "bools",
        kind: ValueKind::Array(ScalarKind::Bool),
        unit: b"\x01\x00\x01\x01",
    },
    Case {
        name: "ints",
        kind: ValueKind::Array(ScalarKind::I64),
        unit: b"\x39\x30\x00\x00\x00\x00\x00\x00",
    },
    Case {
        name: "doubles",
        kind: ValueKind::Array(ScalarKind::F64),
        unit: b"\x00\x00\x00\x00\x00\x00\xf8\x3f\x03\x001.5",
    },
    Case {
        name: "strings",
        kind: ValueKind::Array(ScalarKind::String),
        unit: b"\x02\x00ab",
    },
];

const SIZES: [usize; 4] = [64, 512, 4096, 32768];

/// `unit` over and over up to a size. inspect repeats a count of times, up to a limit of its own, with its own faults.
fn repeated(heap: Global, unit: &[u8], size: usize) -> Result<Vec<u8>, AllocError> {
    let mut v = Vec::new(heap);
    for _ in 0..size / unit.len().max(1) {
        v.extend_from_slice(unit)?;
    }
    Ok(v)
}

/// How often a value is checked and shown.
const TURNS: u32 = 200;

/// Checks and shows the bytes over and over, and adds up the lengths of what is shown, or the numbers
/// of the refusals.
fn work(kind: ValueKind, bytes: &[u8]) -> u64 {
    let mut out = [0u8; 4096];
    let mut sum = 0u64;
    for _ in 0..TURNS {
        let n = match check(u8::from(kind), bytes) {
            Ok(value) => display_text(&value, &mut out) as u64,
            Err(fault) => u8::from(fault) as u64,
        };
        sum = sum.wrapping_add(n);
    }
    sum
}

fn print_case(rt: &HostRuntime, case: Case, size: usize) -> anyhow::Result<()> {
    let value = repeated(rt.alloc(), case.unit, size)?;
    let start = Instant::now(rt)?;
    let sum = work(case.kind, &value);
    let nanos = nanos_a_turn(start.elapsed(rt)?, TURNS);
    let name = case.name;
    let bytes = value.len();
    println!(rt; "{name:<8} {bytes:>6} bytes: {sum}")?;
    let per_byte = PerByte { nanos, bytes };
    eprintln!(rt; "{name:<8} {bytes:>6} bytes: {nanos:>8} ns, {per_byte}")?;
    Ok(())
}

fn main(rt: HostRuntime) -> anyhow::Result<()> {
    for case in CASES {
        for size in SIZES {
            print_case(&rt, case, size)?;
        }
    }
    Ok(())
}
