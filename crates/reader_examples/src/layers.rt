//! The later edition: the table on both sides and under both keys, and what it leaves as it is.
use crate::made::{on_resource, on_span, put_span, resource_says, span_says};
use blocks::sdk_span::SdkSpan;
use blocks::span_kind::SpanKind;
use layer::later_edition::LaterEdition;
use names::attribute_keys::{DB_STATEMENT, DB_SYSTEM, DB_SYSTEM_NAME};
use span_args::span_extract_args::SpanExtractArgs;

/// A later name, and the earlier one that it is read as.
#[derive(Clone, Copy)]
struct Renamed {
    later: &'static [u8],
    earlier: &'static [u8],
}

fn read_so(later: &'static [u8], earlier: &'static [u8]) -> Renamed {
    Renamed { later, earlier }
}

// Whether a name is read so under both keys on both sides, by one layer and by two, and as it is under another key.
fn read_as(name: Renamed) -> bool {
    let mut m = [0u8; 1000];
    let rows = [
        on_span(b"db.system", name.later),
        on_span(b"db.system.name", name.later),
        on_span(b"db.statement", name.later),
        on_resource(b"db.system", name.later),
        on_resource(b"db.system.name", name.later),
        on_resource(b"db.statement", name.later),
    ];
    put_span(&mut m, SpanKind::Client, b"n", &rows);
    let span = SdkSpan::of_ended(&m);
    let reader = SpanExtractArgs::new(&span);
    let one = LaterEdition::new(SpanExtractArgs::new(&span));
    let two = LaterEdition::new(LaterEdition::new(SpanExtractArgs::new(&span)));
    [DB_SYSTEM, DB_SYSTEM_NAME].iter().all(|key| {
        span_says(&reader, *key, Some(name.later))
            && span_says(&one, *key, Some(name.earlier))
            && span_says(&two, *key, Some(name.earlier))
            && resource_says(&reader, *key, Some(name.later))
            && resource_says(&one, *key, Some(name.earlier))
            && resource_says(&two, *key, Some(name.earlier))
    }) && span_says(&two, DB_STATEMENT, Some(name.later))
        && resource_says(&two, DB_STATEMENT, Some(name.later))
}

#[test]
fn all_entries(rt: HostRuntime) {
    let names = [
        read_so(b"actian.ingres", b"ingres"),
        read_so(b"aws.dynamodb", b"dynamodb"),
        read_so(b"aws.redshift", b"redshift"),
        read_so(b"azure.cosmosdb", b"cosmosdb"),
        read_so(b"firebirdsql", b"firebird"),
        read_so(b"h2database", b"h2"),
        read_so(b"ibm.db2", b"db2"),
        read_so(b"ibm.informix", b"informix"),
        read_so(b"ibm.netezza", b"netezza"),
        read_so(b"intersystems.cache", b"cache"),
        read_so(b"microsoft.sql_server", b"mssql"),
        read_so(b"oracle.db", b"oracle"),
        read_so(b"sap.hana", b"hanadb"),
        read_so(b"sap.maxdb", b"maxdb"),
        read_so(b"softwareag.adabas", b"adabas"),
    ];
    for name in names {
        assert!(rt; read_as(name));
    }
}

// By the exact name: no other case, no part, and neither an earlier name nor the empty one.
#[test]
fn other_names_are_kept(rt: HostRuntime) {
    let names = [
        b"postgresql".as_slice(),
        b"mssql",
        b"Microsoft.sql_server",
        b"microsoft.sql_serve",
        b"oracle.db2",
        b"",
    ];
    for name in names {
        assert!(rt; read_as(read_so(name, name)));
    }
}

#[test]
fn absent_stays_absent(rt: HostRuntime) {
    let mut m = [0u8; 1000];
    put_span(
        &mut m,
        SpanKind::Client,
        b"n",
        &[on_span(b"db.system", b"oracle.db")],
    );
    let span = SdkSpan::of_ended(&m);
    let one = LaterEdition::new(SpanExtractArgs::new(&span));
    assert!(rt; span_says(&one, DB_SYSTEM, Some(b"oracle")));
    assert!(rt; span_says(&one, DB_SYSTEM_NAME, None));
    assert!(rt; resource_says(&one, DB_SYSTEM, None));
    assert!(rt; resource_says(&one, DB_SYSTEM_NAME, None));
}
