//! Pairs of drafts that hold equal facts, older names put as later: those that the law covers agree, and of each of its
//! premises a pair that breaks it does not.
use crate::differences::differences;
use crate::made::{Tables, number, recorded, start_of, text};
use blocks::sdk_span::SdkSpan;
use conversion::convert::otel_span_to_dd_span;
use drafts::call::Call;
use layer::later_edition::LaterEdition;
use readers::otel_util::OtelSpan;
use span_args::span_extract_args::SpanExtractArgs;
use std::alloc::{AllocError, Global};
use std::test::Fail;

/// How many values the spans of two lists of calls differ in, bare and under the later edition.
fn differ(
    heap: Global,
    kind: u8,
    one: &[Call<'_>],
    other: &[Call<'_>],
) -> Result<Option<(usize, usize)>, AllocError> {
    let mut m = vec![in heap; 0u8; 4096]?;
    let mut n = vec![in heap; 0u8; 4096]?;
    let mut t = Tables::new(heap)?;
    let mut u = Tables::new(heap)?;
    let bare = bare_differ(kind, one, other, &mut m, &mut n, &mut t, &mut u);
    let later = later_differ(kind, one, other, &mut m, &mut n, &mut t, &mut u);
    Ok(bare.zip(later))
}

/// How many values the conversions of two spans differ in; none where one is refused.
fn conversions_differ<R: OtelSpan, S: OtelSpan>(
    one: SdkSpan<'_>,
    one_reader: &R,
    other: SdkSpan<'_>,
    other_reader: &S,
    t: &mut Tables,
    u: &mut Tables,
) -> Option<usize> {
    let Tables { meta, arena } = t;
    match otel_span_to_dd_span(one, one_reader, meta.as_mut_slice(), arena.as_mut_slice()) {
        Ok(a) => {
            let Tables { meta, arena } = u;
            match otel_span_to_dd_span(
                other,
                other_reader,
                meta.as_mut_slice(),
                arena.as_mut_slice(),
            ) {
                Ok(b) => Some(differences(&a, &b)),
                Err(_) => None,
            }
        }
        Err(_) => None,
    }
}

/// The same of spans recorded by two lists of calls, read as they are.
fn bare_differ(
    kind: u8,
    one: &[Call<'_>],
    other: &[Call<'_>],
    m: &mut [u8],
    n: &mut [u8],
    t: &mut Tables,
    u: &mut Tables,
) -> Option<usize> {
    let a = recorded(m, &start_of(kind, b"load profile", 20), one)?;
    let b = recorded(n, &start_of(kind, b"load profile", 20), other)?;
    let of_a = SpanExtractArgs::new(&a);
    let of_b = SpanExtractArgs::new(&b);
    conversions_differ(a, &of_a, b, &of_b, t, u)
}

/// The same, read under the later edition.
fn later_differ(
    kind: u8,
    one: &[Call<'_>],
    other: &[Call<'_>],
    m: &mut [u8],
    n: &mut [u8],
    t: &mut Tables,
    u: &mut Tables,
) -> Option<usize> {
    let a = recorded(m, &start_of(kind, b"load profile", 20), one)?;
    let b = recorded(n, &start_of(kind, b"load profile", 20), other)?;
    let of_a = LaterEdition::new(SpanExtractArgs::new(&a));
    let of_b = LaterEdition::new(SpanExtractArgs::new(&b));
    conversions_differ(a, &of_a, b, &of_b, t, u)
}

// The commuter's dashboard uses older names and the track's later ones, each in its own order.
#[test]
fn commuter_and_track(rt: HostRuntime) -> Result<(), Fail> {
    let commuter = [
        text(0, b"http.method", b"POST"),
        number(0, b"http.status_code", &[201, 0, 0, 0, 0, 0, 0, 0]),
        text(0, b"dash.mode", b"city"),
        text(1, b"service.name", b"dashboards"),
        text(1, b"deployment.environment", b"workshop"),
    ];
    let track = [
        text(1, b"deployment.environment.name", b"workshop"),
        text(0, b"dash.mode", b"city"),
        text(1, b"service.name", b"dashboards"),
        number(0, b"http.response.status_code", &[201, 0, 0, 0, 0, 0, 0, 0]),
        text(0, b"http.request.method", b"POST"),
    ];
    let found = differ(rt.alloc(), 2, &commuter, &track)?;
    assert_eq!(rt; found, Some((0, 0)));
    Ok(())
}

// The same of two loads from the parts store.
#[test]
fn parts_store(rt: HostRuntime) -> Result<(), Fail> {
    let commuter = [
        text(0, b"db.system", b"mssql"),
        text(0, b"db.statement", b"SELECT part"),
        text(1, b"service.name", b"dashboards"),
    ];
    let track = [
        text(1, b"service.name", b"dashboards"),
        text(0, b"db.query.text", b"SELECT part"),
        text(0, b"db.system.name", b"mssql"),
    ];
    let found = differ(rt.alloc(), 3, &commuter, &track)?;
    assert_eq!(rt; found, Some((0, 0)));
    Ok(())
}

// One load says `mssql` and the other `microsoft.sql_server`: the facts differ, and so do type and name, but not
// under the later edition.
#[test]
fn parts_store_later_edition(rt: HostRuntime) -> Result<(), Fail> {
    let commuter = [text(0, b"db.system", b"mssql")];
    let track = [text(0, b"db.system.name", b"microsoft.sql_server")];
    let found = differ(rt.alloc(), 3, &commuter, &track)?;
    assert_eq!(rt; found, Some((2, 0)));
    Ok(())
}

// Both names of a pair on one span: the facts are equal, older names put as later, and the resources are not.
#[test]
fn used_doubly(rt: HostRuntime) -> Result<(), Fail> {
    let one = [
        text(0, b"http.request.method", b"GET"),
        text(0, b"http.method", b"POST"),
    ];
    let other = [
        text(0, b"http.request.method", b"POST"),
        text(0, b"http.method", b"GET"),
    ];
    let found = differ(rt.alloc(), 2, &one, &other)?;
    assert_ne!(rt; found, Some((0, 0)));
    assert!(rt; found.is_some());
    Ok(())
}

// Two attributes of a list that land on one key: the last one stays.
#[test]
fn land_twice(rt: HostRuntime) -> Result<(), Fail> {
    let one = [
        text(0, b"url.full", b"/profiles/17"),
        text(0, b"http.url", b"/profiles"),
    ];
    let other = [
        text(0, b"http.url", b"/profiles"),
        text(0, b"url.full", b"/profiles/17"),
    ];
    let found = differ(rt.alloc(), 2, &one, &other)?;
    assert_eq!(rt; found, Some((1, 1)));
    Ok(())
}
