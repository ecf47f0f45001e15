//! The types of spans that databases stand for.
ghost use Rattle.std.specs.Prelude.{◌≡◌, ◌≤◌, length};
ghost use Rattle.derived.specs.DatabaseTypes.{database_type};

use names::semconv_shim;
use readers::tables::{Entry, find};

const SPAN_TYPE_SQL: &[u8] = b"sql";

const SPAN_TYPE_CASSANDRA: &[u8] = b"cassandra";

const SPAN_TYPE_REDIS: &[u8] = b"redis";

const SPAN_TYPE_MEMCACHED: &[u8] = b"memcached";

const SPAN_TYPE_MONGODB: &[u8] = b"mongodb";

const SPAN_TYPE_ELASTICSEARCH: &[u8] = b"elasticsearch";

const SPAN_TYPE_OPENSEARCH: &[u8] = b"opensearch";

const SPAN_TYPE_DB: &[u8] = b"db";

/// The types by name; every other name is a database of no known type.
const DB_TYPES: [Entry; 49] = [
    Entry {
        from: semconv_shim::ATTRIBUTE_DB_SYSTEM_OTHER_SQL,
        to: SPAN_TYPE_SQL,
    },
    Entry {
        from: semconv_shim::ATTRIBUTE_DB_SYSTEM_MSSQL,
        to: SPAN_TYPE_SQL,
    },
    Entry {
        from: semconv_shim::ATTRIBUTE_DB_SYSTEM_MYSQL,
        to: SPAN_TYPE_SQL,
    },
    Entry {
        from: semconv_shim::ATTRIBUTE_DB_SYSTEM_ORACLE,
        to: SPAN_TYPE_SQL,
    },
    Entry {
        from: semconv_shim::ATTRIBUTE_DB_SYSTEM_DB2,
        to: SPAN_TYPE_SQL,
    },
    Entry {
        from: semconv_shim::ATTRIBUTE_DB_SYSTEM_POSTGRESQL,
        to: SPAN_TYPE_SQL,
    },
    Entry {
        from: semconv_shim::ATTRIBUTE_DB_SYSTEM_REDSHIFT,
        to: SPAN_TYPE_SQL,
    },
    Entry {
        from: semconv_shim::ATTRIBUTE_DB_SYSTEM_CLOUDSCAPE,
        to: SPAN_TYPE_SQL,
    },
    Entry {
        from: semconv_shim::ATTRIBUTE_DB_SYSTEM_HSQLDB,
        to: SPAN_TYPE_SQL,
    },
    Entry {
        from: semconv_shim::ATTRIBUTE_DB_SYSTEM_MAXDB,
        to: SPAN_TYPE_SQL,
    },
    Entry {
        from: semconv_shim::ATTRIBUTE_DB_SYSTEM_INGRES,
        to: SPAN_TYPE_SQL,
    },
    Entry {
        from: semconv_shim::ATTRIBUTE_DB_SYSTEM_FIRSTSQL,
        to: SPAN_TYPE_SQL,
    },
    Entry {
        from: semconv_shim::ATTRIBUTE_DB_SYSTEM_EDB,
        to: SPAN_TYPE_SQL,
    },
    Entry {
        from: semconv_shim::ATTRIBUTE_DB_SYSTEM_CACHE,
        to: SPAN_TYPE_SQL,
    },
    Entry {
        from: semconv_shim::ATTRIBUTE_DB_SYSTEM_FIREBIRD,
        to: SPAN_TYPE_SQL,
    },
    Entry {
        from: semconv_shim::ATTRIBUTE_DB_SYSTEM_DERBY,
        to: SPAN_TYPE_SQL,
    },
    Entry {
        from: semconv_shim::ATTRIBUTE_DB_SYSTEM_INFORMIX,
        to: SPAN_TYPE_SQL,
    },
    Entry {
        from: semconv_shim::ATTRIBUTE_DB_SYSTEM_MARIADB,
        to: SPAN_TYPE_SQL,
    },
    Entry {
        from: semconv_shim::ATTRIBUTE_DB_SYSTEM_SQLITE,
        to: SPAN_TYPE_SQL,
    },
    Entry {
        from: semconv_shim::ATTRIBUTE_DB_SYSTEM_SYBASE,
        to: SPAN_TYPE_SQL,
    },
    Entry {
        from: semconv_shim::ATTRIBUTE_DB_SYSTEM_TERADATA,
        to: SPAN_TYPE_SQL,
    },
    Entry {
        from: semconv_shim::ATTRIBUTE_DB_SYSTEM_VERTICA,
        to: SPAN_TYPE_SQL,
    },
    Entry {
        from: semconv_shim::ATTRIBUTE_DB_SYSTEM_H2,
        to: SPAN_TYPE_SQL,
    },
    Entry {
        from: semconv_shim::ATTRIBUTE_DB_SYSTEM_COLDFUSION,
        to: SPAN_TYPE_SQL,
    },
    Entry {
        from: semconv_shim::ATTRIBUTE_DB_SYSTEM_COCKROACHDB,
        to: SPAN_TYPE_SQL,
    },
    Entry {
        from: semconv_shim::ATTRIBUTE_DB_SYSTEM_PROGRESS,
        to: SPAN_TYPE_SQL,
    },
    Entry {
        from: semconv_shim::ATTRIBUTE_DB_SYSTEM_HANADB,
        to: SPAN_TYPE_SQL,
    },
    Entry {
        from: semconv_shim::ATTRIBUTE_DB_SYSTEM_ADABAS,
        to: SPAN_TYPE_SQL,
    },
    Entry {
        from: semconv_shim::ATTRIBUTE_DB_SYSTEM_FILEMAKER,
        to: SPAN_TYPE_SQL,
    },
    Entry {
        from: semconv_shim::ATTRIBUTE_DB_SYSTEM_INSTANTDB,
        to: SPAN_TYPE_SQL,
    },
    Entry {
        from: semconv_shim::ATTRIBUTE_DB_SYSTEM_INTERBASE,
        to: SPAN_TYPE_SQL,
    },
    Entry {
        from: semconv_shim::ATTRIBUTE_DB_SYSTEM_NETEZZA,
        to: SPAN_TYPE_SQL,
    },
    Entry {
        from: semconv_shim::ATTRIBUTE_DB_SYSTEM_PERVASIVE,
        to: SPAN_TYPE_SQL,
    },
    Entry {
        from: semconv_shim::ATTRIBUTE_DB_SYSTEM_POINTBASE,
        to: SPAN_TYPE_SQL,
    },
    Entry {
        from: semconv_shim::ATTRIBUTE_DB_SYSTEM_CLICKHOUSE,
        to: SPAN_TYPE_SQL,
    },
    Entry {
        from: semconv_shim::ATTRIBUTE_DB_SYSTEM_CASSANDRA,
        to: SPAN_TYPE_CASSANDRA,
    },
    Entry {
        from: semconv_shim::ATTRIBUTE_DB_SYSTEM_REDIS,
        to: SPAN_TYPE_REDIS,
    },
    Entry {
        from: semconv_shim::ATTRIBUTE_DB_SYSTEM_MEMCACHED,
        to: SPAN_TYPE_MEMCACHED,
    },
    Entry {
        from: semconv_shim::ATTRIBUTE_DB_SYSTEM_MONGODB,
        to: SPAN_TYPE_MONGODB,
    },
    Entry {
        from: semconv_shim::ATTRIBUTE_DB_SYSTEM_ELASTICSEARCH,
        to: SPAN_TYPE_ELASTICSEARCH,
    },
    Entry {
        from: semconv_shim::ATTRIBUTE_DB_SYSTEM_OPENSEARCH,
        to: SPAN_TYPE_OPENSEARCH,
    },
    Entry {
        from: semconv_shim::ATTRIBUTE_DB_SYSTEM_HIVE,
        to: SPAN_TYPE_DB,
    },
    Entry {
        from: semconv_shim::ATTRIBUTE_DB_SYSTEM_HBASE,
        to: SPAN_TYPE_DB,
    },
    Entry {
        from: semconv_shim::ATTRIBUTE_DB_SYSTEM_NEO4J,
        to: SPAN_TYPE_DB,
    },
    Entry {
        from: semconv_shim::ATTRIBUTE_DB_SYSTEM_COUCHBASE,
        to: SPAN_TYPE_DB,
    },
    Entry {
        from: semconv_shim::ATTRIBUTE_DB_SYSTEM_COUCHDB,
        to: SPAN_TYPE_DB,
    },
    Entry {
        from: semconv_shim::ATTRIBUTE_DB_SYSTEM_COSMOSDB,
        to: SPAN_TYPE_DB,
    },
    Entry {
        from: semconv_shim::ATTRIBUTE_DB_SYSTEM_DYNAMODB,
        to: SPAN_TYPE_DB,
    },
    Entry {
        from: semconv_shim::ATTRIBUTE_DB_SYSTEM_GEODE,
        to: SPAN_TYPE_DB,
    },
];

/// The type of span that the name of a database system stands for.
pub fn check_db_type(db_type: &[u8]) -> &'static [u8]
    ensures text { result.now ≡ database_type db_type.now }
    ensures short { length result.now ≤ 4096 }
{
    find(&DB_TYPES, db_type).unwrap_or(SPAN_TYPE_DB)
}
