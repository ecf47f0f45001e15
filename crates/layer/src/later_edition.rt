//! A reader over any other, for spans of a later edition of the conventions.
ghost use Rattle.std.specs.Prelude.{◌≡◌};
ghost use Rattle.lent_bytes.specs.Memory.{portion};
ghost use Rattle.readers.specs.Texts.{Filled};
ghost use Rattle.layer.specs.Later.{earlier_under, is_database_key, later_edition};

use blocks::span_kind::SpanKind;
use lent_bytes::memory::part;
use lent_bytes::texts::write_text;
use names::attribute_keys::{AttributeKey, DB_SYSTEM, DB_SYSTEM_NAME};
use readers::otel_util::OtelSpan;
use readers::tables::{Entry, find};

/// The later names of database systems, and the names that they are read as.
const LATER_NAMES: [Entry; 15] = [
    Entry {
        from: b"actian.ingres",
        to: b"ingres",
    },
    Entry {
        from: b"aws.dynamodb",
        to: b"dynamodb",
    },
    Entry {
        from: b"aws.redshift",
        to: b"redshift",
    },
    Entry {
        from: b"azure.cosmosdb",
        to: b"cosmosdb",
    },
    Entry {
        from: b"firebirdsql",
        to: b"firebird",
    },
    Entry {
        from: b"h2database",
        to: b"h2",
    },
    Entry {
        from: b"ibm.db2",
        to: b"db2",
    },
    Entry {
        from: b"ibm.informix",
        to: b"informix",
    },
    Entry {
        from: b"ibm.netezza",
        to: b"netezza",
    },
    Entry {
        from: b"intersystems.cache",
        to: b"cache",
    },
    Entry {
        from: b"microsoft.sql_server",
        to: b"mssql",
    },
    Entry {
        from: b"oracle.db",
        to: b"oracle",
    },
    Entry {
        from: b"sap.hana",
        to: b"hanadb",
    },
    Entry {
        from: b"sap.maxdb",
        to: b"maxdb",
    },
    Entry {
        from: b"softwareag.adabas",
        to: b"adabas",
    },
];

/// A reader in which database systems have their earlier names.
#[derive(Drop)]
pub struct LaterEdition<S> {
    below: S,
}

impl<S> LaterEdition<S> {
    /// Over another reader.
    pub fn new(below: S) -> LaterEdition<S>
        ensures { result.below ≡ below }
    {
        LaterEdition { below }
    }
}

/// Whether a key names a database system.
fn is_database_key(key: AttributeKey) -> bool
    ensures { result ≡ is_database_key key.idx }
{
    key == DB_SYSTEM || key == DB_SYSTEM_NAME
}

/// What was read under a key to the front of `out`: where it names a database system, the earlier name in place of a
/// later one. Memory and length come as the reader below answered them.
fn put_earlier(key: AttributeKey, out: &mut [u8; 4096], n: usize) -> usize
    requires { Filled 4096 (portion out.old 0 n) n out.old }
    ensures { Filled 4096 (earlier_under key.idx (portion out.old 0 n)) result out.new }
{
    if !is_database_key(key) {
        return n;
    }
    match find(&LATER_NAMES, part(out, 0, n)) {
        Some(name) => write_text(out, name),
        None => n,
    }
}

impl<S: OtelSpan> OtelSpan for LaterEdition<S> {
    ghost reading = { λ s. later_edition (S.OtelSpan.reading s.below) };

    fn name(&self, out: &mut [u8; 4096]) -> usize {
        self.below.name(out)
    }

    fn span_kind(&self) -> SpanKind {
        self.below.span_kind()
    }

    fn has_attr(&self, key: AttributeKey) -> bool {
        self.below.has_attr(key)
    }

    fn has_res_attr(&self, key: AttributeKey) -> bool {
        self.below.has_res_attr(key)
    }

    fn get_attr_str_opt(&self, key: AttributeKey, out: &mut [u8; 4096]) -> Option<usize> {
        let n = self.below.get_attr_str_opt(key, out)?;
        Some(put_earlier(key, out, n))
    }

    fn get_attr_num(&self, key: AttributeKey) -> Option<i64> {
        self.below.get_attr_num(key)
    }

    fn get_res_attribute_opt(&self, key: AttributeKey, out: &mut [u8; 4096]) -> Option<usize> {
        let n = self.below.get_res_attribute_opt(key, out)?;
        Some(put_earlier(key, out, n))
    }
}
