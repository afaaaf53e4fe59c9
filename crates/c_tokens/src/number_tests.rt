//! Numbers of code, by hand.

use crate::token::TokenKind;
use crate::tokens;
use fam_outer::{FileCode, FileRefusal, Place};
use std::alloc::Global;
use std::process::Abort;

/// The number that a text is read as, where it is one token and a number; -1 where it is not.
fn number(rt: &impl Abort, alloc: Global, text: &[u8]) -> i64 {
    assert!(rt; text.len() <= 1_048_576);
    match tokens(alloc, text) {
        Ok(list) => match list.items() {
            [token] => match token.kind {
                TokenKind::Number(value) => value,
                _ => -1,
            },
            _ => -1,
        },
        Err(_) => -1,
    }
}

#[test]
fn integer_constants(rt: HostRuntime) {
    let cases: [(&[u8], i64); 16] = [
        (b"0", 0),
        (b"7", 7),
        (b"2147483647", 2147483647),
        (b"00", 0),
        (b"017", 15),
        (b"0777", 511),
        (b"017777777777", 2147483647),
        (b"000000000000000000000001", 1),
        (b"0x0", 0),
        (b"0x2F", 47),
        (b"0X2f", 47),
        (b"0xaBcDeF", 11259375),
        (b"0x7fffffff", 2147483647),
        (b"0x00000000000000000010", 16),
        (b"0x1E", 30),
        (b"0xe", 14),
    ];
    for (text, wanted) in cases {
        assert_eq!(rt; number(&rt, rt.alloc(), text), wanted);
    }
}

#[test]
fn character_constants(rt: HostRuntime) {
    let cases: [(&[u8], i64); 27] = [
        (b"' '", 32),
        (b"'a'", 97),
        (b"'~'", 126),
        (b"'\"'", 34),
        (b"'/'", 47),
        (b"'\\''", 39),
        (b"'\\\"'", 34),
        (b"'\\?'", 63),
        (b"'\\\\'", 92),
        (b"'\\a'", 7),
        (b"'\\b'", 8),
        (b"'\\f'", 12),
        (b"'\\n'", 10),
        (b"'\\r'", 13),
        (b"'\\t'", 9),
        (b"'\\v'", 11),
        (b"'\\0'", 0),
        (b"'\\7'", 7),
        (b"'\\12'", 10),
        (b"'\\177'", 127),
        (b"'\\001'", 1),
        (b"'\\x0'", 0),
        (b"'\\x41'", 65),
        (b"'\\x7f'", 127),
        (b"'\\x7F'", 127),
        (b"'\\x000000000041'", 65),
        (b"'8'", 56),
    ];
    for (text, wanted) in cases {
        assert_eq!(rt; number(&rt, rt.alloc(), text), wanted);
    }
}

/// The column of the first fault of a line, where it is a wrong literal; else 0.
fn wrong_literal(rt: &impl Abort, alloc: Global, text: &[u8]) -> u32 {
    assert!(rt; text.len() <= 1_048_576);
    match tokens(alloc, text) {
        Err(
            FileRefusal::Fault {
                code: FileCode::Literal,
                place: Place { line: 1, column },
            },
        ) => column,
        _ => 0,
    }
}

#[test]
fn wrong_literals(rt: HostRuntime) {
    let cases: [(&[u8], u32); 36] = [
        (b"2147483648", 1),
        (b"020000000000", 1),
        (b"0x80000000", 1),
        (b"0xfffffffffffffffff", 1),
        (b"08", 1),
        (b"079", 1),
        (b"0x", 1),
        (b"0X", 1),
        (b"0xg", 1),
        (b"0b1", 1),
        (b"1L", 1),
        (b"1u", 1),
        (b"0x1L", 1),
        (b"017u", 1),
        (b"1_0", 1),
        (b"1e+5", 1),
        (b"0x1e+5", 1),
        (b"0x1E-5", 1),
        (b"0x1p+5", 1),
        (b"x = ''", 5),
        (b"x = 'ab'", 5),
        (b"x = '", 5),
        (b"x = 'a", 5),
        (b"'''", 1),
        (b"'\\", 1),
        (b"'\\'", 1),
        (b"'\\c'", 1),
        (b"'\\e'", 1),
        (b"'\\x'", 1),
        (b"'\\xg'", 1),
        (b"'\\x80'", 1),
        (b"'\\200'", 1),
        (b"'\\0001'", 1),
        (b"'\\8'", 1),
        (b"'\t'", 1),
        (b"'\x7f'", 1),
    ];
    for (text, wanted) in cases {
        assert_eq!(rt; wrong_literal(&rt, rt.alloc(), text), wanted);
    }
}

/// How many tokens a text has; 0 where it has a fault.
fn count(rt: &impl Abort, alloc: Global, text: &[u8]) -> usize {
    assert!(rt; text.len() <= 1_048_576);
    match tokens(alloc, text) {
        Ok(list) => list.items().len(),
        Err(_) => 0,
    }
}

#[test]
fn numbers_end_where_nothing_goes_on(rt: HostRuntime) {
    let cases: [(&[u8], usize); 7] = [
        (b"0x1+5", 3),
        (b"0x1F+5", 3),
        (b"0xe +5", 3),
        (b"'a''b'", 2),
        (b"x*=y/=z%=2", 7),
        (b"x*==y", 4),
        (b"'\\'' '\\\\'", 2),
    ];
    for (text, wanted) in cases {
        assert_eq!(rt; count(&rt, rt.alloc(), text), wanted);
    }
}
