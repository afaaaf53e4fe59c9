//! Tables of bytes and words, by hand.

use c_words::{
    constant_value, goes_on, is_constant, is_digit, is_digit_in, is_gap, is_keyword, is_reserved,
    is_space, is_word_byte, numeral,
};
use std::test::Fail;

#[test]
fn words_are_reserved(rt: HostRuntime) -> Result<(), Fail> {
    let cases = [
        ("int", true, true),
        ("_Thread_local", true, true),
        ("_Imaginary", true, true),
        ("main", false, true),
        ("defined", false, true),
        ("NDEBUG", false, true),
        ("Int", false, false),
        ("integer", false, false),
        ("", false, false),
    ];
    for (word, keyword, reserved) in cases {
        assert_eq!(rt; is_keyword(word.as_bytes()), keyword);
        assert_eq!(rt; is_reserved(word.as_bytes()), reserved);
    }
    Ok(())
}

#[test]
fn bytes_are_of_their_kinds(rt: HostRuntime) -> Result<(), Fail> {
    let cases = [
        (b' ', true, true, false, false),
        (b'\n', true, false, false, false),
        (b'\r', true, true, false, false),
        (8, false, false, false, false),
        (14, false, false, false, false),
        (b'0', false, false, true, true),
        (b'9', false, false, true, true),
        (b'/', false, false, false, false),
        (b':', false, false, false, false),
        (b'_', false, false, false, true),
        (b'z', false, false, false, true),
        (b'{', false, false, false, false),
    ];
    for (b, space, gap, digit, word) in cases {
        assert_eq!(rt; is_space(b), space);
        assert_eq!(rt; is_gap(b), gap);
        assert_eq!(rt; is_digit(b), digit);
        assert_eq!(rt; is_word_byte(b), word);
    }
    Ok(())
}

#[test]
fn integer_constants_have_values(rt: HostRuntime) -> Result<(), Fail> {
    let cases: [(&[u8], Option<u32>); 8] = [
        (b"0", Some(0)),
        (b"9", Some(9)),
        (b"255", Some(255)),
        (b"256", None),
        (b"0377", Some(255)),
        (b"0400", None),
        (b"0xfF", Some(255)),
        (b"0X100", None),
    ];
    for (word, value) in cases {
        assert!(rt; is_constant(word));
        assert_eq!(rt; constant_value(word, 255), value);
    }
    let others: [&[u8]; 6] = [b"", b"08", b"0x", b"0xg", b"5L", b"x"];
    for word in others {
        assert!(rt; !is_constant(word));
    }
    Ok(())
}

#[test]
fn digits_have_values(rt: HostRuntime) -> Result<(), Fail> {
    let cases: [(u32, &[u8], Option<u32>); 7] = [
        (8, b"177", Some(127)),
        (8, b"200", None),
        (8, b"8", None),
        (16, b"7f", Some(127)),
        (16, b"0000007F", Some(127)),
        (16, b"", None),
        (10, b"99999999999999999999", None),
    ];
    for (base, digits, value) in cases {
        assert_eq!(rt; numeral(base, digits, 127), value);
    }
    assert!(rt; is_digit_in(8, b'7') && !is_digit_in(8, b'8'));
    assert!(rt; is_digit_in(16, b'F') && !is_digit_in(16, b'g'));
    Ok(())
}

#[test]
fn numbers_go_on(rt: HostRuntime) -> Result<(), Fail> {
    let cases = [
        (b'1', b'x', true),
        (b'1', b'_', true),
        (b'1', b'+', false),
        (b'e', b'+', true),
        (b'E', b'-', true),
        (b'p', b'-', true),
        (b'P', b'+', true),
        (b'e', b'*', false),
        (b'f', b'+', false),
    ];
    for (last, b, wanted) in cases {
        assert_eq!(rt; goes_on(last, b), wanted);
    }
    Ok(())
}
