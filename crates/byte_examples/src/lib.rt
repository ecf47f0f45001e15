//! Examples of the calls on memory, at and past its ends.
#![tactic(auto)]

#[cfg(test)]
mod tests {
    use lent_bytes::fields::{Number, id_at};
    use lent_bytes::memory::{after, byte, clear_from, part, write};
    use lent_bytes::tables::{index_of, text_at};
    use lent_bytes::texts::{TextWriter, write_text};

    #[test]
    fn parts_end_with_the_memory(rt: HostRuntime) {
        assert!(rt; part(b"abcdef", 1, 3) == b"bcd".as_slice());
        assert!(rt; part(b"abcdef", 4, 9) == b"ef".as_slice());
        assert!(rt; part(b"abcdef", 7, 1) == b"".as_slice());
        assert!(rt; part(b"abcdef", usize::MAX, usize::MAX) == b"".as_slice());
        assert!(rt; after(b"abcdef", 4) == b"ef".as_slice());
        assert!(rt; after(b"abcdef", 6) == b"".as_slice());
        assert_eq!(rt; byte(b"ab", 1), b'b');
        assert_eq!(rt; byte(b"ab", 2), 0);
    }

    #[test]
    fn writes_are_clipped(rt: HostRuntime) {
        let mut m = *b"abcdef";
        write(&mut m, 4, b"XYZ");
        assert!(rt; &m == b"abcdXY");
        write(&mut m, 6, b"Z");
        assert!(rt; &m == b"abcdXY");
        clear_from(&mut m, 2);
        assert!(rt; &m == b"ab\0\0\0\0");
        clear_from(&mut m, 9);
        assert!(rt; &m == b"ab\0\0\0\0");
    }

    #[test]
    fn numbers_in_bytes(rt: HostRuntime) {
        let m = b"\x01\x02\x03\x04\x05\x06\x07\x88";
        assert_eq!(rt; u16::read(m, 0), 0x0201);
        assert_eq!(rt; u16::read(m, 7), 0x88);
        assert_eq!(rt; u32::read(m, 2), 0x06050403);
        assert_eq!(rt; u64::read(m, 0), 0x8807_0605_0403_0201);
        assert_eq!(rt; i64::read(m, 0), -0x77f8_f9fa_fbfc_fdff);
        assert_eq!(rt; id_at(m, 0), 0x0102_0304_0506_0788);
        assert_eq!(rt; u64::read(m, 8), 0);
    }

    #[test]
    fn numbers_are_written(rt: HostRuntime) {
        let mut m = [0u8; 24];
        0x0201u16.put(&mut m, 0);
        0x06050403u32.put(&mut m, 2);
        0x0102u64.put(&mut m, 8);
        (-2i64).put(&mut m, 16);
        assert!(rt; &m[0..10] == b"\x01\x02\x03\x04\x05\x06\0\0\x02\x01".as_slice());
        assert_eq!(rt; i64::read(&m, 16), -2);
        0x06050403u32.put(&mut m, 22);
        assert!(rt; &m[22..24] == b"\x03\x04".as_slice());
    }

    #[test]
    fn texts_in_a_buffer(rt: HostRuntime) {
        let mut out = [b'.'; 8];
        let mut text = TextWriter::new(&mut out);
        text.push(b"ab");
        text.push_decimal(120);
        let n = text.len();
        assert_eq!(rt; n, 5);
        assert!(rt; &out == b"ab120...");
        let mut text = TextWriter::behind(&mut out, n);
        text.push_signed(-4567);
        assert_eq!(rt; text.len(), 8);
        assert!(rt; &out == b"ab120-45");
        assert_eq!(rt; TextWriter::behind(&mut out, 3).finish(), 3);
        assert!(rt; &out == b"ab1\0\0\0\0\0");
        assert_eq!(rt; write_text(&mut out, b"a long text"), 8);
        assert!(rt; &out == b"a long t");
        let mut text = TextWriter::behind(&mut out, 1);
        text.push_hex(b"\x0f\xa0");
        assert_eq!(rt; text.len(), 5);
        assert!(rt; &out == b"a0fa0g t");
    }

    #[test]
    fn tables_of_texts(rt: HostRuntime) {
        let table: [&[u8]; 3] = [b"one", b"two", b"two"];
        assert!(rt; b"two".as_slice() == b"two".as_slice());
        assert!(rt; b"two".as_slice() != b"twos".as_slice());
        assert!(rt; text_at(&table, 0) == b"one".as_slice());
        assert!(rt; text_at(&table, 3) == b"".as_slice());
        assert_eq!(rt; index_of(&table, b"two"), Some(1));
        assert_eq!(rt; index_of(&table, b"tw"), None);
    }
}
