//! The names of the database systems, which the list of the conventions lacks, as constants and in a table.
ghost use Rattle.std.specs.Prelude.{◌≡◌, map};
ghost use Rattle.lent_bytes.specs.Lookup.{index_from};
ghost use Rattle.names.specs.Conventions.{database_names};

use lent_bytes::tables;

pub const ATTRIBUTE_DB_SYSTEM_OTHER_SQL: &[u8] = b"other_sql";

pub const ATTRIBUTE_DB_SYSTEM_MSSQL: &[u8] = b"mssql";

pub const ATTRIBUTE_DB_SYSTEM_MSSQLCOMPACT: &[u8] = b"mssqlcompact";

pub const ATTRIBUTE_DB_SYSTEM_MYSQL: &[u8] = b"mysql";

pub const ATTRIBUTE_DB_SYSTEM_ORACLE: &[u8] = b"oracle";

pub const ATTRIBUTE_DB_SYSTEM_DB2: &[u8] = b"db2";

pub const ATTRIBUTE_DB_SYSTEM_POSTGRESQL: &[u8] = b"postgresql";

pub const ATTRIBUTE_DB_SYSTEM_REDSHIFT: &[u8] = b"redshift";

pub const ATTRIBUTE_DB_SYSTEM_HIVE: &[u8] = b"hive";

pub const ATTRIBUTE_DB_SYSTEM_CLOUDSCAPE: &[u8] = b"cloudscape";

pub const ATTRIBUTE_DB_SYSTEM_HSQLDB: &[u8] = b"hsqldb";

pub const ATTRIBUTE_DB_SYSTEM_PROGRESS: &[u8] = b"progress";

pub const ATTRIBUTE_DB_SYSTEM_MAXDB: &[u8] = b"maxdb";

pub const ATTRIBUTE_DB_SYSTEM_HANADB: &[u8] = b"hanadb";

pub const ATTRIBUTE_DB_SYSTEM_INGRES: &[u8] = b"ingres";

pub const ATTRIBUTE_DB_SYSTEM_FIRSTSQL: &[u8] = b"firstsql";

pub const ATTRIBUTE_DB_SYSTEM_EDB: &[u8] = b"edb";

pub const ATTRIBUTE_DB_SYSTEM_CACHE: &[u8] = b"cache";

pub const ATTRIBUTE_DB_SYSTEM_ADABAS: &[u8] = b"adabas";

pub const ATTRIBUTE_DB_SYSTEM_FIREBIRD: &[u8] = b"firebird";

pub const ATTRIBUTE_DB_SYSTEM_DERBY: &[u8] = b"derby";

pub const ATTRIBUTE_DB_SYSTEM_FILEMAKER: &[u8] = b"filemaker";

pub const ATTRIBUTE_DB_SYSTEM_INFORMIX: &[u8] = b"informix";

pub const ATTRIBUTE_DB_SYSTEM_INSTANTDB: &[u8] = b"instantdb";

pub const ATTRIBUTE_DB_SYSTEM_INTERBASE: &[u8] = b"interbase";

pub const ATTRIBUTE_DB_SYSTEM_MARIADB: &[u8] = b"mariadb";

pub const ATTRIBUTE_DB_SYSTEM_NETEZZA: &[u8] = b"netezza";

pub const ATTRIBUTE_DB_SYSTEM_PERVASIVE: &[u8] = b"pervasive";

pub const ATTRIBUTE_DB_SYSTEM_POINTBASE: &[u8] = b"pointbase";

pub const ATTRIBUTE_DB_SYSTEM_SQLITE: &[u8] = b"sqlite";

pub const ATTRIBUTE_DB_SYSTEM_SYBASE: &[u8] = b"sybase";

pub const ATTRIBUTE_DB_SYSTEM_TERADATA: &[u8] = b"teradata";

pub const ATTRIBUTE_DB_SYSTEM_VERTICA: &[u8] = b"vertica";

pub const ATTRIBUTE_DB_SYSTEM_H2: &[u8] = b"h2";

pub const ATTRIBUTE_DB_SYSTEM_COLDFUSION: &[u8] = b"coldfusion";

pub const ATTRIBUTE_DB_SYSTEM_CASSANDRA: &[u8] = b"cassandra";

pub const ATTRIBUTE_DB_SYSTEM_HBASE: &[u8] = b"hbase";

pub const ATTRIBUTE_DB_SYSTEM_MONGODB: &[u8] = b"mongodb";

pub const ATTRIBUTE_DB_SYSTEM_REDIS: &[u8] = b"redis";

pub const ATTRIBUTE_DB_SYSTEM_COUCHBASE: &[u8] = b"couchbase";

pub const ATTRIBUTE_DB_SYSTEM_COUCHDB: &[u8] = b"couchdb";

pub const ATTRIBUTE_DB_SYSTEM_COSMOSDB: &[u8] = b"cosmosdb";

pub const ATTRIBUTE_DB_SYSTEM_DYNAMODB: &[u8] = b"dynamodb";

pub const ATTRIBUTE_DB_SYSTEM_NEO4J: &[u8] = b"neo4j";

pub const ATTRIBUTE_DB_SYSTEM_GEODE: &[u8] = b"geode";

pub const ATTRIBUTE_DB_SYSTEM_ELASTICSEARCH: &[u8] = b"elasticsearch";

pub const ATTRIBUTE_DB_SYSTEM_MEMCACHED: &[u8] = b"memcached";

pub const ATTRIBUTE_DB_SYSTEM_COCKROACHDB: &[u8] = b"cockroachdb";

pub const ATTRIBUTE_DB_SYSTEM_OPENSEARCH: &[u8] = b"opensearch";

pub const ATTRIBUTE_DB_SYSTEM_CLICKHOUSE: &[u8] = b"clickhouse";

pub const ATTRIBUTE_DB_SYSTEM_SPANNER: &[u8] = b"spanner";

pub const ATTRIBUTE_DB_SYSTEM_TRINO: &[u8] = b"trino";

/// How many database systems have a name.
pub const NUMBER_OF_DATABASES: usize = 52;

/// The names above, in their order.
pub const DATABASES: [&[u8]; NUMBER_OF_DATABASES] = [
    ATTRIBUTE_DB_SYSTEM_OTHER_SQL,
    ATTRIBUTE_DB_SYSTEM_MSSQL,
    ATTRIBUTE_DB_SYSTEM_MSSQLCOMPACT,
    ATTRIBUTE_DB_SYSTEM_MYSQL,
    ATTRIBUTE_DB_SYSTEM_ORACLE,
    ATTRIBUTE_DB_SYSTEM_DB2,
    ATTRIBUTE_DB_SYSTEM_POSTGRESQL,
    ATTRIBUTE_DB_SYSTEM_REDSHIFT,
    ATTRIBUTE_DB_SYSTEM_HIVE,
    ATTRIBUTE_DB_SYSTEM_CLOUDSCAPE,
    ATTRIBUTE_DB_SYSTEM_HSQLDB,
    ATTRIBUTE_DB_SYSTEM_PROGRESS,
    ATTRIBUTE_DB_SYSTEM_MAXDB,
    ATTRIBUTE_DB_SYSTEM_HANADB,
    ATTRIBUTE_DB_SYSTEM_INGRES,
    ATTRIBUTE_DB_SYSTEM_FIRSTSQL,
    ATTRIBUTE_DB_SYSTEM_EDB,
    ATTRIBUTE_DB_SYSTEM_CACHE,
    ATTRIBUTE_DB_SYSTEM_ADABAS,
    ATTRIBUTE_DB_SYSTEM_FIREBIRD,
    ATTRIBUTE_DB_SYSTEM_DERBY,
    ATTRIBUTE_DB_SYSTEM_FILEMAKER,
    ATTRIBUTE_DB_SYSTEM_INFORMIX,
    ATTRIBUTE_DB_SYSTEM_INSTANTDB,
    ATTRIBUTE_DB_SYSTEM_INTERBASE,
    ATTRIBUTE_DB_SYSTEM_MARIADB,
    ATTRIBUTE_DB_SYSTEM_NETEZZA,
    ATTRIBUTE_DB_SYSTEM_PERVASIVE,
    ATTRIBUTE_DB_SYSTEM_POINTBASE,
    ATTRIBUTE_DB_SYSTEM_SQLITE,
    ATTRIBUTE_DB_SYSTEM_SYBASE,
    ATTRIBUTE_DB_SYSTEM_TERADATA,
    ATTRIBUTE_DB_SYSTEM_VERTICA,
    ATTRIBUTE_DB_SYSTEM_H2,
    ATTRIBUTE_DB_SYSTEM_COLDFUSION,
    ATTRIBUTE_DB_SYSTEM_CASSANDRA,
    ATTRIBUTE_DB_SYSTEM_HBASE,
    ATTRIBUTE_DB_SYSTEM_MONGODB,
    ATTRIBUTE_DB_SYSTEM_REDIS,
    ATTRIBUTE_DB_SYSTEM_COUCHBASE,
    ATTRIBUTE_DB_SYSTEM_COUCHDB,
    ATTRIBUTE_DB_SYSTEM_COSMOSDB,
    ATTRIBUTE_DB_SYSTEM_DYNAMODB,
    ATTRIBUTE_DB_SYSTEM_NEO4J,
    ATTRIBUTE_DB_SYSTEM_GEODE,
    ATTRIBUTE_DB_SYSTEM_ELASTICSEARCH,
    ATTRIBUTE_DB_SYSTEM_MEMCACHED,
    ATTRIBUTE_DB_SYSTEM_COCKROACHDB,
    ATTRIBUTE_DB_SYSTEM_OPENSEARCH,
    ATTRIBUTE_DB_SYSTEM_CLICKHOUSE,
    ATTRIBUTE_DB_SYSTEM_SPANNER,
    ATTRIBUTE_DB_SYSTEM_TRINO,
];

/// The names of all database systems.
pub fn database_names() -> [&'static [u8]; NUMBER_OF_DATABASES]
    ensures { map (λ x. x.now) result ≡ database_names }
{
    DATABASES
}

/// Which of the database systems has this name.
pub fn database_idx(name: &[u8]) -> Option<usize>
    ensures { result ≡ index_from 0 name.now database_names }
{
    tables::index_of(&DATABASES, name)
}
