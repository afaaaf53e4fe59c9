//! Texts by hand, with their blanked text or refusal, their lines and their code.

use cpp_lines::*;
use fam_outer::{FileCode, FileRefusal, Includes, Place, Text};
use std::alloc::Global;
use std::process::Abort;

/// The number of a code of this crate, as in F1.
fn number(code: &FileCode) -> u8 {
    match code {
        FileCode::OpenComment => 1,
        FileCode::Splice => 2,
        FileCode::CommentAtDirective => 3,
        FileCode::Directive => 4,
        FileCode::GroupHere => 21,
        _ => 0,
    }
}

/// The code's number, the line and the column; zeros for want of memory.
fn refusal(refusal: &FileRefusal) -> (u8, u32, u32) {
    match refusal {
        FileRefusal::Fault { code, place } => (number(code), place.line, place.column),
        FileRefusal::NoMemory => (0, 0, 0),
    }
}

fn blanked(rt: &impl Abort, alloc: Global, text: &[u8]) -> Result<Text, FileRefusal> {
    assert!(rt; text.len() <= 1_048_576);
    blank_comments(alloc, text)
}

fn lined(rt: &impl Abort, alloc: Global, text: &[u8]) -> Result<Lines, FileRefusal> {
    assert!(rt; text.len() <= 1_048_576);
    plain_lines(alloc, Includes::Assert, text)
}

#[test]
fn comments_become_spaces(rt: HostRuntime) -> Result<(), FileRefusal> {
    let cases: [(&[u8], &[u8]); 16] = [
        (b"", b""),
        (b"a/b * c", b"a/b * c"),
        (b"a/* b */c", b"a       c"),
        (b"a//b\nc", b"a   \nc"),
        (b"//", b"  "),
        (b"/*\t\xff\n*/x", b"   \x20\n  x"),
        (b"/*/ */x", b"      x"),
        (b"/**/x/***/", b"    x     "),
        (b"/* // */x", b"        x"),
        (b"// /*\nx", b"     \nx"),
        (b"\"/* */\"", b"\"     \""),
        (b"x\\ \n\\y", b"x\\ \n\\y"),
        (b"// a??/ b\nx", b"         \nx"),
        (b"// ?? /\nx", b"       \nx"),
        (b"#if /* a */\nx /*\n*/ y", b"#if        \nx   \n   y"),
        (b"x /*\n*/ /* b */ ; #", b"x   \n           ; #"),
    ];
    for (text, wanted) in cases {
        let found = blanked(&rt, rt.alloc(), text)?;
        assert_eq!(rt; found.bytes(), wanted);
    }
    Ok(())
}

#[test]
fn texts_are_refused(rt: HostRuntime) {
    let cases: [(&[u8], (u8, u32, u32)); 20] = [
        (b"x\n /* a", (1, 2, 2)),
        (b"/*/", (1, 1, 1)),
        (b"#x /*\n", (1, 1, 4)),
        (b"x\n y\\\nz", (2, 2, 3)),
        (b"x\\\r\n", (2, 1, 2)),
        (b"// a\\\nx", (2, 1, 5)),
        (b"\\\n/*", (2, 1, 1)),
        (b"/* \\\n */", (2, 1, 4)),
        // a trigraph is a backslash
        (b"x = 1;??/\n", (2, 1, 7)),
        (b"x??/\r\n", (2, 1, 2)),
        (b"// why??/\nx", (2, 1, 7)),
        (b"/* a??/\n */", (2, 1, 5)),
        (b"x\n????/\n", (2, 2, 3)),
        (b"  # if /* a\n*/", (3, 1, 8)),
        (b"x\n /* a\n\n b */ # if", (3, 2, 2)),
        (b"/*\n*/ /* b */ #", (3, 1, 1)),
        (b"/*\n*/ /*\n*/ #", (3, 2, 4)),
        (b"/* a */ #if /*\n*/", (3, 1, 13)),
        (b"/*\\\n*/#", (3, 1, 1)),
        (b"/*\n*/ /*\n*/ x /* \\\n #", (1, 3, 6)),
    ];
    for (text, wanted) in cases {
        let found = blanked(&rt, rt.alloc(), text).map_err(|r| refusal(&r));
        assert_eq!(rt; found.map(|_| 0), Err(wanted));
    }
}

/// The lines and the code of a text.
fn read(
    rt: &impl Abort,
    alloc: Global,
    includes: Includes,
    text: &[u8],
) -> Result<(Lines, Text), FileRefusal> {
    assert!(rt; text.len() <= 1_048_576);
    let lines = plain_lines(alloc, includes, text)?;
    let code = code_text(alloc, text)?;
    Ok((lines, code))
}

/// A line by its kind, its first offset, the offset behind it, and its place.
fn line(kind: LineKind, start: u32, end: u32, line: u32, column: u32) -> Line {
    Line {
        kind,
        start,
        end,
        place: Place { line, column },
    }
}

#[test]
fn lines_and_code(rt: HostRuntime) -> Result<(), FileRefusal> {
    let text = b" \t# include\x0b <assert.h> \r\nint x;\n\n#include<assert.h>";
    let wanted = [
        line(LineKind::Include, 0, 25, 1, 3),
        line(LineKind::Code, 26, 32, 2, 1),
        line(LineKind::Code, 33, 33, 3, 1),
        line(LineKind::Include, 34, 52, 4, 1),
    ];
    let (lines, code) = read(&rt, rt.alloc(), Includes::Assert, text)?;
    assert_eq!(rt; lines.items(), wanted.as_slice());
    assert_eq!(rt;
        code.bytes(),
        b"                         \nint x;\n\n                  ".as_slice()
    );
    Ok(())
}

#[test]
fn includes_are_lines(rt: HostRuntime) -> Result<(), FileRefusal> {
    let text = b"#include <stdint.h>\n \t# include \"a.h\" x\nint x;\n#include\n";
    let wanted = [
        line(LineKind::Include, 0, 19, 1, 1),
        line(LineKind::Include, 20, 39, 2, 3),
        line(LineKind::Code, 40, 46, 3, 1),
        line(LineKind::Include, 47, 55, 4, 1),
        line(LineKind::Code, 56, 56, 5, 1),
    ];
    let (lines, code) = read(&rt, rt.alloc(), Includes::Skip, text)?;
    assert_eq!(rt; lines.items(), wanted.as_slice());
    assert_eq!(rt;
        code.bytes(),
        b"                   \n                   \nint x;\n        \n".as_slice()
    );
    Ok(())
}

#[test]
fn directives_are_refused(rt: HostRuntime) {
    let cases: [(&[u8], (u8, u32, u32)); 20] = [
        (b"#", (4, 1, 1)),
        (b"x\n  # \n", (4, 2, 3)),
        (b"#include <stdio.h>", (4, 1, 1)),
        (b"#include < assert.h>", (4, 1, 1)),
        (b"#include <assert.h> x", (4, 1, 1)),
        (b"#include \"assert.h\"", (4, 1, 1)),
        (b"#include", (4, 1, 1)),
        (b"#define A", (4, 1, 1)),
        (b"#ifA", (4, 1, 1)),
        (b"#IF A", (4, 1, 1)),
        (b"#else x", (4, 1, 1)),
        (b"#if A\n#endif A", (21, 1, 1)),
        (b"#endif A\n#if A", (4, 1, 1)),
        (b"int x;\n \x0c # if A", (21, 2, 4)),
        (b"#if(A)", (21, 1, 1)),
        (b"#ifdef", (21, 1, 1)),
        (b"#ifndef A", (21, 1, 1)),
        (b"#elif", (21, 1, 1)),
        (b"#else \r", (21, 1, 1)),
        (b"#endif", (21, 1, 1)),
    ];
    for (text, wanted) in cases {
        let found = lined(&rt, rt.alloc(), text).map_err(|r| refusal(&r));
        assert_eq!(rt; found.map(|_| 0), Err(wanted));
    }
}

#[test]
fn definitions_are_lines(rt: HostRuntime) -> Result<(), FileRefusal> {
    let text = b"#define K 3\n # define  K_2\t( -0x1F )\r\nint x\x01;\n#define C '\\n'";
    let wanted = [
        line(LineKind::Define, 0, 11, 1, 1),
        line(LineKind::Define, 12, 37, 2, 2),
        line(LineKind::Code, 38, 45, 3, 1),
        line(LineKind::Define, 46, 60, 4, 1),
    ];
    let (lines, code) = read(&rt, rt.alloc(), Includes::Assert, text)?;
    assert_eq!(rt; lines.items(), wanted.as_slice());
    assert_eq!(rt;
        code.bytes(),
        b"\x01       K 3\n \x01         K_2\t( -0x1F )\r\nint x\x02;\n\x01       C '\\n'".as_slice()
    );
    Ok(())
}

#[test]
fn definitions_are_refused(rt: HostRuntime) {
    let cases: [&[u8]; 24] = [
        b"#define",
        b"#define K",
        b"#define K(3)",
        b"#define K (3",
        b"#define K -(3)",
        b"#define K ((3))",
        b"#define K (3) 4",
        b"#define K --3",
        b"#define K +3",
        b"#define K 3u",
        b"#define K 08",
        b"#define K 0x",
        b"#define K 2147483648",
        b"#define K ''",
        b"#define K-3",
        b"#define K'a'",
        b"#define K X",
        b"#define 3 3",
        b"#define __K 3",
        b"#define int 3",
        b"#define int32_t 3",
        b"#define main 3",
        b"#define defined 3",
        b"#define NDEBUG 3",
    ];
    for text in cases {
        let found = lined(&rt, rt.alloc(), text).map_err(|r| refusal(&r));
        assert_eq!(rt; found.map(|_| 0), Err((4, 1, 1)));
    }
}

#[test]
fn texts_end(rt: HostRuntime) {
    let cases: [(&[u8], (u32, u32)); 5] = [
        (b"", (1, 1)),
        (b"ab", (1, 3)),
        (b"ab\n", (2, 1)),
        (b"a\n\r\nbcd", (3, 4)),
        (b"\n\n", (3, 1)),
    ];
    for (text, (line, column)) in cases {
        assert_eq!(rt; end_place(text), Place { line, column });
    }
}
