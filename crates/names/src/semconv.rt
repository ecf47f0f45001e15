//! The names of the conventions that the conversion reads and writes, as constants and in a list, as in the source.
ghost use Rattle.std.specs.Prelude.{◌≡◌, map};
ghost use Rattle.names.specs.Conventions.{convention_names, sampling_rate_name};

pub const CLIENT_ADDRESS: &[u8] = b"client.address";

pub const HTTP_RESPONSE_BODY_SIZE: &[u8] = b"http.response.body.size";

pub const HTTP_RESPONSE_STATUS_CODE: &[u8] = b"http.response.status_code";

pub const HTTP_REQUEST_BODY_SIZE: &[u8] = b"http.request.body.size";

pub const HTTP_REQUEST_METHOD: &[u8] = b"http.request.method";

pub const HTTP_ROUTE: &[u8] = b"http.route";

pub const NETWORK_PROTOCOL_VERSION: &[u8] = b"network.protocol.version";

pub const SERVER_ADDRESS: &[u8] = b"server.address";

pub const URL_FULL: &[u8] = b"url.full";

pub const USER_AGENT_ORIGINAL: &[u8] = b"user_agent.original";

pub const SERVICE_NAME: &[u8] = b"service.name";

pub const SERVICE_VERSION: &[u8] = b"service.version";

pub const OTEL_SCOPE_NAME: &[u8] = b"otel.scope.name";

pub const OTEL_SCOPE_VERSION: &[u8] = b"otel.scope.version";

pub const OTEL_STATUS_CODE: &[u8] = b"otel.status_code";

pub const OTEL_STATUS_DESCRIPTION: &[u8] = b"otel.status_description";

pub const EXCEPTION_MESSAGE: &[u8] = b"exception.message";

pub const EXCEPTION_TYPE: &[u8] = b"exception.type";

pub const EXCEPTION_STACKTRACE: &[u8] = b"exception.stacktrace";

/// The name under which a span says how often events are extracted from it.
pub const SAMPLING_RATE_EVENT_EXTRACTION_KEY: &[u8] = b"_dd1.sr.eausr";

/// All of these names, in the order above.
pub fn conventions() -> [&'static [u8]; 19]
    ensures { map (λ x. x.now) result ≡ convention_names }
{
    [
        CLIENT_ADDRESS,
        HTTP_RESPONSE_BODY_SIZE,
        HTTP_RESPONSE_STATUS_CODE,
        HTTP_REQUEST_BODY_SIZE,
        HTTP_REQUEST_METHOD,
        HTTP_ROUTE,
        NETWORK_PROTOCOL_VERSION,
        SERVER_ADDRESS,
        URL_FULL,
        USER_AGENT_ORIGINAL,
        SERVICE_NAME,
        SERVICE_VERSION,
        OTEL_SCOPE_NAME,
        OTEL_SCOPE_VERSION,
        OTEL_STATUS_CODE,
        OTEL_STATUS_DESCRIPTION,
        EXCEPTION_MESSAGE,
        EXCEPTION_TYPE,
        EXCEPTION_STACKTRACE,
    ]
}

/// The name of the sampling rate of event extraction.
pub fn sampling_rate_key() -> &'static [u8]
    ensures { result.now ≡ sampling_rate_name }
{
    SAMPLING_RATE_EVENT_EXTRACTION_KEY
}
