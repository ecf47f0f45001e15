//! Examples of the names: known keys and their neighbours, the last of several places, and lower case.
#![tactic(auto)]

#[cfg(test)]
mod tests {
    use names::attribute_indices::AttributeIndices;
    use names::case::to_lower_case;
    use names::{attribute_keys, semconv, semconv_shim};

    #[test]
    fn looks_keys_up(rt: HostRuntime) {
        assert_eq!(rt;
            attribute_keys::get_attribute_idx(b"db.system"),
            Some(attribute_keys::DB_SYSTEM)
        );
        assert_eq!(rt;
            attribute_keys::get_attribute_idx(b"db.system.name"),
            Some(attribute_keys::DB_SYSTEM_NAME)
        );
        assert_eq!(rt; attribute_keys::get_attribute_idx(b"db.syste"), None);
        assert_eq!(rt; attribute_keys::get_attribute_idx(b"_dd.measured2"), None);
        assert_eq!(rt; attribute_keys::get_attribute_idx(b""), None);
    }

    #[test]
    fn spells_keys(rt: HostRuntime) {
        assert_eq!(rt;
            attribute_keys::DATADOG_SERVICE.key(),
            b"datadog.service".as_slice()
        );
        assert_eq!(rt;
            attribute_keys::SERVICE_VERSION.key(),
            b"service.version".as_slice()
        );
        assert_eq!(rt;
            attribute_keys::DD_MEASURED.key(),
            b"_dd.measured".as_slice()
        );
        assert_eq!(rt; attribute_keys::DD_MEASURED.place(), 42);
        assert_eq!(rt;
            attribute_keys::attribute_keys()[15],
            attribute_keys::DB_SYSTEM
        );
    }

    struct Spelled {
        key: attribute_keys::AttributeKey,
        text: &'static [u8],
    }

    // No proof sees the names of constants: this table does.
    const SPELLED: [Spelled; 43] = [
        Spelled {
            key: attribute_keys::DATADOG_SERVICE,
            text: b"datadog.service",
        },
        Spelled {
            key: attribute_keys::DATADOG_NAME,
            text: b"datadog.name",
        },
        Spelled {
            key: attribute_keys::DATADOG_ENV,
            text: b"datadog.env",
        },
        Spelled {
            key: attribute_keys::DATADOG_RESOURCE,
            text: b"datadog.resource",
        },
        Spelled {
            key: attribute_keys::DATADOG_TYPE,
            text: b"datadog.type",
        },
        Spelled {
            key: attribute_keys::DATADOG_VERSION,
            text: b"datadog.version",
        },
        Spelled {
            key: attribute_keys::DATADOG_HTTP_STATUS_CODE,
            text: b"datadog.http_status_code",
        },
        Spelled {
            key: attribute_keys::DATADOG_SPAN_KIND,
            text: b"datadog.span.kind",
        },
        Spelled {
            key: attribute_keys::DATADOG_ERROR,
            text: b"datadog.error",
        },
        Spelled {
            key: attribute_keys::DATADOG_ERROR_MSG,
            text: b"datadog.error.msg",
        },
        Spelled {
            key: attribute_keys::DATADOG_ERROR_TYPE,
            text: b"datadog.error.type",
        },
        Spelled {
            key: attribute_keys::DATADOG_ERROR_STACK,
            text: b"datadog.error.stack",
        },
        Spelled {
            key: attribute_keys::OPERATION_NAME,
            text: b"operation.name",
        },
        Spelled {
            key: attribute_keys::HTTP_REQUEST_METHOD,
            text: b"http.request.method",
        },
        Spelled {
            key: attribute_keys::HTTP_METHOD,
            text: b"http.method",
        },
        Spelled {
            key: attribute_keys::DB_SYSTEM,
            text: b"db.system",
        },
        Spelled {
            key: attribute_keys::DB_SYSTEM_NAME,
            text: b"db.system.name",
        },
        Spelled {
            key: attribute_keys::MESSAGING_SYSTEM,
            text: b"messaging.system",
        },
        Spelled {
            key: attribute_keys::MESSAGING_OPERATION,
            text: b"messaging.operation",
        },
        Spelled {
            key: attribute_keys::MESSAGING_OPERATION_TYPE,
            text: b"messaging.operation.type",
        },
        Spelled {
            key: attribute_keys::RPC_SYSTEM,
            text: b"rpc.system",
        },
        Spelled {
            key: attribute_keys::RPC_SERVICE,
            text: b"rpc.service",
        },
        Spelled {
            key: attribute_keys::FAAS_INVOKED_PROVIDER,
            text: b"faas.invoked_provider",
        },
        Spelled {
            key: attribute_keys::FAAS_INVOKED_NAME,
            text: b"faas.invoked_name",
        },
        Spelled {
            key: attribute_keys::FAAS_TRIGGER,
            text: b"faas.trigger",
        },
        Spelled {
            key: attribute_keys::GRAPHQL_OPERATION_TYPE,
            text: b"graphql.operation.type",
        },
        Spelled {
            key: attribute_keys::NETWORK_PROTOCOL_NAME,
            text: b"network.protocol.name",
        },
        Spelled {
            key: attribute_keys::RESOURCE_NAME,
            text: b"resource.name",
        },
        Spelled {
            key: attribute_keys::HTTP_ROUTE,
            text: b"http.route",
        },
        Spelled {
            key: attribute_keys::MESSAGING_DESTINATION,
            text: b"messaging.destination",
        },
        Spelled {
            key: attribute_keys::MESSAGING_DESTINATION_NAME,
            text: b"messaging.destination.name",
        },
        Spelled {
            key: attribute_keys::RPC_METHOD,
            text: b"rpc.method",
        },
        Spelled {
            key: attribute_keys::GRAPHQL_OPERATION_NAME,
            text: b"graphql.operation.name",
        },
        Spelled {
            key: attribute_keys::DB_STATEMENT,
            text: b"db.statement",
        },
        Spelled {
            key: attribute_keys::DB_QUERY_TEXT,
            text: b"db.query.text",
        },
        Spelled {
            key: attribute_keys::SPAN_TYPE,
            text: b"span.type",
        },
        Spelled {
            key: attribute_keys::HTTP_RESPONSE_STATUS_CODE,
            text: b"http.response.status_code",
        },
        Spelled {
            key: attribute_keys::HTTP_STATUS_CODE,
            text: b"http.status_code",
        },
        Spelled {
            key: attribute_keys::SERVICE_NAME,
            text: b"service.name",
        },
        Spelled {
            key: attribute_keys::SERVICE_VERSION,
            text: b"service.version",
        },
        Spelled {
            key: attribute_keys::DEPLOYMENT_ENVIRONMENT_NAME,
            text: b"deployment.environment.name",
        },
        Spelled {
            key: attribute_keys::DEPLOYMENT_ENVIRONMENT,
            text: b"deployment.environment",
        },
        Spelled {
            key: attribute_keys::DD_MEASURED,
            text: b"_dd.measured",
        },
    ];

    #[test]
    fn every_constant_has_its_text(rt: HostRuntime) {
        for row in &SPELLED {
            assert!(rt; row.key.key() == row.text);
        }
    }

    #[test]
    fn the_last_place_wins(rt: HostRuntime) {
        let keys: [&[u8]; 5] = [
            b"http.route",
            b"other",
            b"rpc.method",
            b"http.route",
            b"http.rout",
        ];
        let places = AttributeIndices::from_keys(&keys);
        assert_eq!(rt; places.get(attribute_keys::HTTP_ROUTE), Some(3));
        assert_eq!(rt; places.get(attribute_keys::RPC_METHOD), Some(2));
        assert_eq!(rt; places.get(attribute_keys::DATADOG_SERVICE), None);
    }

    #[test]
    fn notes_places(rt: HostRuntime) {
        let mut places = AttributeIndices::default();
        assert_eq!(rt; places.get(attribute_keys::DD_MEASURED), None);
        places.set(attribute_keys::DD_MEASURED, 7);
        places.set(attribute_keys::DB_SYSTEM, 0);
        places.set(attribute_keys::DD_MEASURED, 8);
        assert_eq!(rt; places.get(attribute_keys::DD_MEASURED), Some(8));
        assert_eq!(rt; places.get(attribute_keys::DB_SYSTEM), Some(0));
        assert_eq!(rt; places.get(attribute_keys::DB_SYSTEM_NAME), None);
    }

    #[test]
    fn names_conventions(rt: HostRuntime) {
        assert_eq!(rt;
            semconv::conventions()[2],
            b"http.response.status_code".as_slice()
        );
        assert_eq!(rt; semconv::sampling_rate_key(), b"_dd1.sr.eausr".as_slice());
        assert_eq!(rt;
            semconv_shim::database_names()[1],
            semconv_shim::ATTRIBUTE_DB_SYSTEM_MSSQL
        );
        assert_eq!(rt; semconv_shim::database_idx(b"mssqlcompact"), Some(2));
        assert_eq!(rt; semconv_shim::database_idx(b"trino"), Some(51));
        assert_eq!(rt; semconv_shim::database_idx(b"MySQL"), None);
    }

    #[test]
    fn lowers_letters_only(rt: HostRuntime) {
        let mut text = [
            b'@', b'A', b'Z', b'[', b'z', b'0', 0, 127, 128, 0xc3, 0x9c, 255,
        ];
        to_lower_case(&mut text);
        assert_eq!(rt;
            text,
            [
                b'@', b'a', b'z', b'[', b'z', b'0', 0, 127, 128, 0xc3, 0x9c, 255,
            ]
        );
    }
}
