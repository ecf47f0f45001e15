//! The attribute keys that the conversion asks for, each with a place of its own. A constant is named by
//! its key's text.
ghost use Rattle.std.specs.Prelude.{◌≡◌, [], map, slice_index_or};
ghost use Rattle.std.specs.Option.{option_map};
ghost use Rattle.lent_bytes.specs.Lookup.{LookedUpExactly};
ghost use Rattle.names.specs.Keys.{keys, key_at, known, up_to};

use crate::semconv;
use lent_bytes::tables;

/// How many keys are known.
pub const NUMBER_OF_ATTRIBUTES: usize = 43;

/// The known keys, each at its place.
pub const KEYS: [&[u8]; NUMBER_OF_ATTRIBUTES] = [
    b"datadog.service",
    b"datadog.name",
    b"datadog.env",
    b"datadog.resource",
    b"datadog.type",
    b"datadog.version",
    b"datadog.http_status_code",
    b"datadog.span.kind",
    b"datadog.error",
    b"datadog.error.msg",
    b"datadog.error.type",
    b"datadog.error.stack",
    b"operation.name",
    b"http.request.method",
    b"http.method",
    b"db.system",
    b"db.system.name",
    b"messaging.system",
    b"messaging.operation",
    b"messaging.operation.type",
    b"rpc.system",
    b"rpc.service",
    b"faas.invoked_provider",
    b"faas.invoked_name",
    b"faas.trigger",
    b"graphql.operation.type",
    b"network.protocol.name",
    b"resource.name",
    b"http.route",
    b"messaging.destination",
    b"messaging.destination.name",
    b"rpc.method",
    b"graphql.operation.name",
    b"db.statement",
    b"db.query.text",
    b"span.type",
    b"http.response.status_code",
    b"http.status_code",
    semconv::SERVICE_NAME,
    semconv::SERVICE_VERSION,
    b"deployment.environment.name",
    b"deployment.environment",
    b"_dd.measured",
];

/// One of the known keys, by its place among them. The places and the constants below are one list each, as in
/// the source: an enum would say each of the 43 names once more and be no plainer.
#[derive(Clone, Copy, PartialEq, Eq, Debug)]
pub struct AttributeKey {
    idx: usize,
}

pub const DATADOG_SERVICE: AttributeKey = AttributeKey { idx: 0 };

pub const DATADOG_NAME: AttributeKey = AttributeKey { idx: 1 };

pub const DATADOG_ENV: AttributeKey = AttributeKey { idx: 2 };

pub const DATADOG_RESOURCE: AttributeKey = AttributeKey { idx: 3 };

pub const DATADOG_TYPE: AttributeKey = AttributeKey { idx: 4 };

pub const DATADOG_VERSION: AttributeKey = AttributeKey { idx: 5 };

pub const DATADOG_HTTP_STATUS_CODE: AttributeKey = AttributeKey { idx: 6 };

pub const DATADOG_SPAN_KIND: AttributeKey = AttributeKey { idx: 7 };

pub const DATADOG_ERROR: AttributeKey = AttributeKey { idx: 8 };

pub const DATADOG_ERROR_MSG: AttributeKey = AttributeKey { idx: 9 };

pub const DATADOG_ERROR_TYPE: AttributeKey = AttributeKey { idx: 10 };

pub const DATADOG_ERROR_STACK: AttributeKey = AttributeKey { idx: 11 };

pub const OPERATION_NAME: AttributeKey = AttributeKey { idx: 12 };

pub const HTTP_REQUEST_METHOD: AttributeKey = AttributeKey { idx: 13 };

pub const HTTP_METHOD: AttributeKey = AttributeKey { idx: 14 };

pub const DB_SYSTEM: AttributeKey = AttributeKey { idx: 15 };

pub const DB_SYSTEM_NAME: AttributeKey = AttributeKey { idx: 16 };

pub const MESSAGING_SYSTEM: AttributeKey = AttributeKey { idx: 17 };

pub const MESSAGING_OPERATION: AttributeKey = AttributeKey { idx: 18 };

pub const MESSAGING_OPERATION_TYPE: AttributeKey = AttributeKey { idx: 19 };

pub const RPC_SYSTEM: AttributeKey = AttributeKey { idx: 20 };

pub const RPC_SERVICE: AttributeKey = AttributeKey { idx: 21 };

pub const FAAS_INVOKED_PROVIDER: AttributeKey = AttributeKey { idx: 22 };

pub const FAAS_INVOKED_NAME: AttributeKey = AttributeKey { idx: 23 };

pub const FAAS_TRIGGER: AttributeKey = AttributeKey { idx: 24 };

pub const GRAPHQL_OPERATION_TYPE: AttributeKey = AttributeKey { idx: 25 };

pub const NETWORK_PROTOCOL_NAME: AttributeKey = AttributeKey { idx: 26 };

pub const RESOURCE_NAME: AttributeKey = AttributeKey { idx: 27 };

pub const HTTP_ROUTE: AttributeKey = AttributeKey { idx: 28 };

pub const MESSAGING_DESTINATION: AttributeKey = AttributeKey { idx: 29 };

pub const MESSAGING_DESTINATION_NAME: AttributeKey = AttributeKey { idx: 30 };

pub const RPC_METHOD: AttributeKey = AttributeKey { idx: 31 };

pub const GRAPHQL_OPERATION_NAME: AttributeKey = AttributeKey { idx: 32 };

pub const DB_STATEMENT: AttributeKey = AttributeKey { idx: 33 };

pub const DB_QUERY_TEXT: AttributeKey = AttributeKey { idx: 34 };

pub const SPAN_TYPE: AttributeKey = AttributeKey { idx: 35 };

pub const HTTP_RESPONSE_STATUS_CODE: AttributeKey = AttributeKey { idx: 36 };

pub const HTTP_STATUS_CODE: AttributeKey = AttributeKey { idx: 37 };

pub const SERVICE_NAME: AttributeKey = AttributeKey { idx: 38 };

pub const SERVICE_VERSION: AttributeKey = AttributeKey { idx: 39 };

pub const DEPLOYMENT_ENVIRONMENT_NAME: AttributeKey = AttributeKey { idx: 40 };

pub const DEPLOYMENT_ENVIRONMENT: AttributeKey = AttributeKey { idx: 41 };

pub const DD_MEASURED: AttributeKey = AttributeKey { idx: 42 };

/// The constants above, in the order of their keys.
pub const NAMED: [AttributeKey; NUMBER_OF_ATTRIBUTES] = [
    DATADOG_SERVICE,
    DATADOG_NAME,
    DATADOG_ENV,
    DATADOG_RESOURCE,
    DATADOG_TYPE,
    DATADOG_VERSION,
    DATADOG_HTTP_STATUS_CODE,
    DATADOG_SPAN_KIND,
    DATADOG_ERROR,
    DATADOG_ERROR_MSG,
    DATADOG_ERROR_TYPE,
    DATADOG_ERROR_STACK,
    OPERATION_NAME,
    HTTP_REQUEST_METHOD,
    HTTP_METHOD,
    DB_SYSTEM,
    DB_SYSTEM_NAME,
    MESSAGING_SYSTEM,
    MESSAGING_OPERATION,
    MESSAGING_OPERATION_TYPE,
    RPC_SYSTEM,
    RPC_SERVICE,
    FAAS_INVOKED_PROVIDER,
    FAAS_INVOKED_NAME,
    FAAS_TRIGGER,
    GRAPHQL_OPERATION_TYPE,
    NETWORK_PROTOCOL_NAME,
    RESOURCE_NAME,
    HTTP_ROUTE,
    MESSAGING_DESTINATION,
    MESSAGING_DESTINATION_NAME,
    RPC_METHOD,
    GRAPHQL_OPERATION_NAME,
    DB_STATEMENT,
    DB_QUERY_TEXT,
    SPAN_TYPE,
    HTTP_RESPONSE_STATUS_CODE,
    HTTP_STATUS_CODE,
    SERVICE_NAME,
    SERVICE_VERSION,
    DEPLOYMENT_ENVIRONMENT_NAME,
    DEPLOYMENT_ENVIRONMENT,
    DD_MEASURED,
];

/// All constants: each has the place of its key, so no two are mixed up.
pub fn attribute_keys() -> [AttributeKey; NUMBER_OF_ATTRIBUTES]
    ensures { map (λ k. k.idx) result ≡ up_to 43 }
{
    NAMED
}

impl AttributeKey {
    /// Its text.
    pub fn key(&self) -> &'static [u8]
        ensures { result.now ≡ slice_index_or keys self.now.idx [] }
    {
        tables::text_at(&KEYS, self.idx)
    }

    /// Its place in the table.
    pub fn place(&self) -> usize
        ensures { result ≡ self.now.idx }
    {
        self.idx
    }
}

/// The known key with these bytes.
pub fn get_attribute_idx(key: &[u8]) -> Option<AttributeKey>
    ensures { result ≡ option_map key_at (known key.now) }
{
    tables::index_of(&KEYS, key).map(|idx| AttributeKey { idx })
}

/// A key is known just where the table has it, and then by its own place.
pub fn known_exactly()
    ensures { LookedUpExactly keys }
{}
