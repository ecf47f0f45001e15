//! Numbers, metrics and kinds.
use std::test::Fail;
use values::doubles::{nearest_pattern, whole_number};
use values::kinds::{ScalarKind, ValueKind};
use values::value::{Array, Double, Scalar, Value};

#[test]
fn whole_doubles(rt: HostRuntime) {
    assert_eq!(rt; whole_number(0x0000_0000_0000_0000), Some(0));
    assert_eq!(rt; whole_number(0x8000_0000_0000_0000), Some(0));
    assert_eq!(rt; whole_number(0x3ff0_0000_0000_0000), Some(1));
    assert_eq!(rt; whole_number(0x3ff8_0000_0000_0000), None);
    assert_eq!(rt; whole_number(0xc059_0000_0000_0000), Some(-100));
    assert_eq!(rt; whole_number(0x7ff0_0000_0000_0000), None);
    assert_eq!(rt; whole_number(0xfff0_0000_0000_0000), None);
    assert_eq!(rt; whole_number(0x7ff8_0000_0000_0000), None);
    assert_eq!(rt; whole_number(0xc3e0_0000_0000_0000), Some(i64::MIN));
    assert_eq!(rt; whole_number(0xc3e0_0000_0000_0001), None);
    assert_eq!(rt; whole_number(0x43e0_0000_0000_0000), None);
    assert_eq!(rt; whole_number(0x0000_0000_0000_0001), None);
}

#[test]
fn nearest_doubles(rt: HostRuntime) {
    assert_eq!(rt; nearest_pattern(0), 0);
    assert_eq!(rt; nearest_pattern(1), 0x3ff0_0000_0000_0000);
    assert_eq!(rt; nearest_pattern(-2), 0xc000_0000_0000_0000);
    assert_eq!(rt; nearest_pattern(9007199254740993), 0x4340_0000_0000_0000);
    assert_eq!(rt; nearest_pattern(9007199254740995), 0x4340_0000_0000_0002);
    assert_eq!(rt; nearest_pattern(i64::MAX), 0x43e0_0000_0000_0000);
    assert_eq!(rt; nearest_pattern(i64::MIN), 0xc3e0_0000_0000_0000);
}

#[test]
fn numbers_and_metrics_of_values(rt: HostRuntime) {
    let int = Value::Scalar(Scalar::I64(-7));
    assert_eq!(rt; int.number(), Some(-7));
    assert_eq!(rt; int.metric(), Some(0xc01c_0000_0000_0000));
    let pattern = 0x4000_0000_0000_0000;
    let double = Value::Scalar(Scalar::F64(Double {
        pattern,
        text: b"2",
    }));
    assert_eq!(rt; double.number(), Some(2));
    assert_eq!(rt; double.metric(), Some(pattern));
    assert_eq!(rt; Value::Scalar(Scalar::Bool(true)).number(), None);
    assert_eq!(rt; Value::Scalar(Scalar::String(b"4")).metric(), None);
    let array = Value::Array(Array {
        kind: ScalarKind::I64,
        bytes: b"12345678",
    });
    assert_eq!(rt; array.number(), None);
    assert_eq!(rt; array.metric(), None);
}

#[test]
fn kinds_by_number(rt: HostRuntime) -> Result<(), Fail> {
    for n in 0..8u8 {
        let Ok(kind) = ValueKind::try_from(n) else {
            return Err(Fail::new("no kind"));
        };
        assert_eq!(rt; u8::from(kind), n);
        assert_eq!(rt; u8::from(Value::new(kind, b"").kind()), n);
    }
    assert!(rt; ValueKind::try_from(8).is_err());
    Ok(())
}
