//! Words with the numbers that they are, both ways.

use qm_dec::{DecFail, canonical_law, read_count, read_micro, read_ratio, write_micro};

#[test]
fn words_read_and_write(rt: HostRuntime) {
    canonical_law();
    let table: [(&[u8], i64, &[u8]); 10] = [
        (b"1.", 1_000_000, b"1"),
        (b".5", 500_000, b"0.5"),
        (b"-0", 0, b"0"),
        (b"1.5e-7", 0, b"0"),
        (b"0.0000005", 1, b"0.000001"),
        (b"-0.0000005", -1, b"-0.000001"),
        (b"-12.340000", -12_340_000, b"-12.34"),
        (b"0e999999", 0, b"0"),
        (b"0000000001.5", 1_500_000, b"1.5"),
        (
            b"+999999999.9999994",
            999_999_999_999_999,
            b"999999999.999999",
        ),
    ];
    for (word, millionths, text) in table {
        match read_micro(word) {
            Ok(number) => {
                assert_eq!(rt; number.n, millionths);
                let mut out = [0; 24];
                let end = write_micro(&mut out, number);
                assert!(rt; &out[..end] == text);
            }
            Err(_) => assert!(rt; false, "refused"),
        }
    }
}

#[test]
fn refusals(rt: HostRuntime) {
    let forms: [&[u8]; 11] = [
        b"", b"nan", b"inf", b"1,5", b".", b"+", b"1e", b"1e+", b"1.2.3", b"--1", b"1.5x",
    ];
    for word in forms {
        assert_eq!(rt; read_micro(word).err(), Some(DecFail::Syntax));
    }
    let far: [&[u8]; 4] = [
        b"1e9",
        b"999999999.9999995",
        b"-1e999999999999999999999999",
        b"1000000000000000000000000000000000000",
    ];
    for word in far {
        assert_eq!(rt; read_micro(word).err(), Some(DecFail::Range));
    }
}

#[test]
fn ratios(rt: HostRuntime) {
    let table: [(&[u8], Option<(u32, u32)>); 8] = [
        (b"1/2", Some((1, 2))),
        (b"1000/1000", Some((1000, 1000))),
        (b"1001/2", None),
        (b"01/2", None),
        (b"0/2", None),
        (b"1/2/3", None),
        (b"+1/2", None),
        (b"12", None),
    ];
    for (word, want) in table {
        assert!(rt; read_ratio(word) == want);
    }
}

#[test]
fn counts(rt: HostRuntime) {
    let table: [(&[u8], Option<u32>); 6] = [
        (b"1", Some(1)),
        (b"1000", Some(1000)),
        (b"1001", None),
        (b"0", None),
        (b"007", None),
        (b"", None),
    ];
    for (word, want) in table {
        assert!(rt; read_count(word, 1000) == want);
    }
}
