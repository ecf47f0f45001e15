//! The names under which two spans may differ, though they hold the same facts under older and later names.
ghost use Rattle.std.specs.Prelude.{◌≡◌};
ghost use Rattle.std.specs.List.{list_any};
ghost use Rattle.std.specs.Str.{bytes_eq};
ghost use Rattle.conversion_law.specs.Agreement.{left_out};

/// The ten names.
pub const LEFT_OUT: [&[u8]; 10] = [
    b"db.system",
    b"db.system.name",
    b"db.statement",
    b"db.query.text",
    b"messaging.operation",
    b"messaging.operation.type",
    b"messaging.destination",
    b"messaging.destination.name",
    b"deployment.environment",
    b"deployment.environment.name",
];

/// Whether a key is among some names.
fn is_among(names: &[&[u8]], key: &[u8]) -> bool
    ensures { result ≡ list_any (λ t. bytes_eq key.now t.now) names.now }
{
    names.iter().any(|name| key == *name)
}

/// Whether a key is one of the ten names.
pub fn is_left_out(key: &[u8]) -> bool
    ensures { result ≡ left_out key.now }
{
    is_among(&LEFT_OUT, key)
}
