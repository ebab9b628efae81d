use arrayvec::ArrayVec;
use dec_text::{DecFault, put_fixed, put_pair, read_decimal, read_whole};

#[test]
fn reads(rt: HostRuntime) {
    for (text, decimals, want) in [
        ("50", 4, Ok(500_000)),
        ("0.01", 4, Ok(100)),
        ("-12.5", 4, Ok(-125_000)),
        ("+7", 0, Ok(7)),
        (".5", 1, Ok(5)),
        ("5.", 1, Ok(50)),
        ("-0", 0, Ok(0)),
        ("0001.2300000", 2, Ok(123)),
        ("1000000000.000000", 6, Ok(1_000_000_000_000_000)),
        ("-1000000000000000", 0, Ok(-1_000_000_000_000_000)),
        ("", 2, Err(DecFault::Empty)),
        ("-", 2, Err(DecFault::Empty)),
        ("+.", 2, Err(DecFault::Empty)),
        ("..", 2, Err(DecFault::NotDigit(1))),
        ("+-5", 2, Err(DecFault::NotDigit(1))),
        (" 1", 2, Err(DecFault::NotDigit(0))),
        ("-12a", 2, Err(DecFault::NotDigit(3))),
        ("1.234.x", 2, Err(DecFault::NotDigit(5))),
        ("1.230000001", 2, Err(DecFault::TooManyPlaces)),
        ("2000000000000000.1", 0, Err(DecFault::TooManyPlaces)),
        ("1000000000000001", 0, Err(DecFault::TooLarge)),
        ("1000000000.000001", 6, Err(DecFault::TooLarge)),
        (
            "-340282366920938463463374607431768211456",
            0,
            Err(DecFault::TooLarge),
        ),
    ] {
        assert!(rt; decimals <= 6);
        assert_eq!(rt; read_decimal(text.as_bytes(), decimals), want, "at {text}");
    }
}

#[test]
fn reads_whole_numbers(rt: HostRuntime) {
    for (text, most, want) in [
        ("0", 1, Some(0)),
        ("004000", 9, Some(4000)),
        ("999999999", 9, Some(999_999_999)),
        ("9999", 4, Some(9999)),
        ("00001", 4, None),
        ("1234567890", 9, None),
        ("", 9, None),
        ("+1", 9, None),
        ("1 ", 9, None),
    ] {
        assert!(rt; most <= 9);
        assert_eq!(rt; read_whole(text.as_bytes(), most), want, "at {text}");
    }
}

#[test]
fn prints(rt: HostRuntime) {
    for (value, decimals, want) in [
        (0_i128, 0, "0"),
        (0, 2, "0.00"),
        (-5, 3, "-0.005"),
        (123, 2, "1.23"),
        (
            1_000_000_000_000_000_000_000_000_000_000,
            0,
            "1000000000000000000000000000000",
        ),
        (
            -1_000_000_000_000_000_000_000_000_000_000,
            12,
            "-1000000000000000000.000000000000",
        ),
    ] {
        assert!(rt; value.unsigned_abs() <= 1_000_000_000_000_000_000_000_000_000_000);
        assert!(rt; decimals <= 12);
        let mut text = ArrayVec::new();
        put_fixed(value, decimals, &mut text);
        assert_eq!(rt; text.as_slice(), want.as_bytes(), "at {want}");
    }
    let mut text = ArrayVec::new();
    put_pair(250_000_000_000, 250_000_000_000, &mut text);
    assert_eq!(rt;
        text.as_slice(),
        "0.250000000000..0.250000000000".as_bytes()
    );
    let mut text = ArrayVec::new();
    put_pair(-1, 1_000_000_000_000, &mut text);
    assert_eq!(rt;
        text.as_slice(),
        "-0.000000000001..1.000000000000".as_bytes()
    );
}
