//! The tokens of a text.
#![tactic(auto)]

ghost use Rattle.std.specs.Prelude.{◌<◌, ◌≤◌, ◌+◌, [], ◌++◌, length};
ghost use Rattle.c_tokens.specs.Reading.{tokens_of};
ghost use Rattle.fam_outer.specs.Refusals.{Gives};

use crate::lexemes::front;
use crate::token::{Token, Tokens};
use c_words::is_space;
use fam_outer::{FILE_BYTES, FileRefusal, Place, cut, place_after};
use std::alloc::Global;

/// The tokens of a text, or its first fault.
///
/// Tokens are words (identifiers and keywords), numbers and the marks
/// `( ) { } ; , = == != < <= > >= + - * / % ! && || ++ -- += -= *= /= %=`, and the byte 1, which stands for the `#` of a
/// definition and for no byte of a file. Each is the longest sequence of bytes that could be one (ISO/IEC 9899:2011, 6.4, paragraph 4), and white space separates them. Places count lines and columns
/// from 1, columns in bytes.
///
/// A number is an integer constant without a suffix up to 2147483647, decimal, octal (`017`) or hexadecimal (`0x2F`), or
/// a character constant: one byte from a space to `~` between quotes, or an escape up to 127, in ASCII.
///
/// It answers `StrayByte` at the first byte that begins no token, and `Literal` at a digit or a quote that begins no
/// such number: the whole preprocessing number must be one, and the quote must be closed in its line. The first place
/// decides. It answers `NoMemory` for want of memory.
pub fn tokens(alloc: Global, text: &[u8]) -> Result<Tokens, FileRefusal>
    requires { length text.now ≤ FILE_BYTES }
    ensures { Gives (λ tokens. tokens) result (tokens_of text.now) }
{
    let mut list = Vec::new(alloc);
    let mut place = Place { line: 1, column: 1 };
    let mut at: u32 = 0;
    let mut rest = text;
    'scan: while let Some((b, behind)) = cut(rest) {
        if is_space(b) {
            place = place_after(b, place);
            at += 1;
            rest = behind;
            continue;
        }
        let (kind, len) = match front(rest) {
            Ok(found) => found,
            Err(code) => return Err(FileRefusal::Fault { code, place }),
        };
        let end = at + len as u32;
        let token = Token {
            kind,
            place,
            start: at,
            end,
        };
        list.push(token)?;
        place.column += len as u32;
        at = end;
        rest = rest.split_at(len).1;
    }
    Ok(Tokens::from_vec(list))
}

#[cfg(test)]
mod tests {
    use super::*;
    use crate::token::TokenKind;
    use fam_outer::FileCode;
    use std::process::Abort;

    const W: TokenKind = TokenKind::Word;

    const M: TokenKind = TokenKind::Mark;

    fn number(value: i64) -> TokenKind {
        TokenKind::Number(value)
    }

    /// A token of one line, by its line, its column, its offset and its length.
    fn at(kind: TokenKind, line: u32, column: u32, start: u16, len: u16) -> Token {
        Token {
            kind,
            place: Place { line, column },
            start: start as u32,
            end: start as u32 + len as u32,
        }
    }

    fn read(rt: &impl Abort, alloc: Global, text: &[u8]) -> Result<Tokens, FileRefusal> {
        assert!(rt; text.len() <= 1_048_576);
        tokens(alloc, text)
    }

    fn accepts(rt: &impl Abort, alloc: Global, text: &[u8], wanted: &[Token]) {
        match read(rt, alloc, text) {
            Ok(list) => assert_eq!(rt; list.items(), wanted),
            Err(_) => panic!(rt; "refused"),
        }
    }

    #[test]
    fn longest_matches(rt: HostRuntime) {
        accepts(&rt, rt.alloc(), b"", &[]);
        accepts(
            &rt,
            rt.alloc(),
            b"a+++=b",
            &[
                at(W, 1, 1, 0, 1),
                at(M, 1, 2, 1, 2),
                at(M, 1, 4, 3, 2),
                at(W, 1, 6, 5, 1),
            ],
        );
        accepts(
            &rt,
            rt.alloc(),
            b"<==",
            &[at(M, 1, 1, 0, 2), at(M, 1, 3, 2, 1)],
        );
        accepts(
            &rt,
            rt.alloc(),
            b"x1 _9",
            &[at(W, 1, 1, 0, 2), at(W, 1, 4, 3, 2)],
        );
        accepts(
            &rt,
            rt.alloc(),
            b"0 7 2147483647",
            &[
                at(number(0), 1, 1, 0, 1),
                at(number(7), 1, 3, 2, 1),
                at(number(2147483647), 1, 5, 4, 10),
            ],
        );
        accepts(
            &rt,
            rt.alloc(),
            b"a\r\n\t b\n\n;",
            &[at(W, 1, 1, 0, 1), at(W, 2, 3, 5, 1), at(M, 4, 1, 8, 1)],
        );
        accepts(
            &rt,
            rt.alloc(),
            b"!= == >=-=",
            &[
                at(M, 1, 1, 0, 2),
                at(M, 1, 4, 3, 2),
                at(M, 1, 7, 6, 2),
                at(M, 1, 9, 8, 2),
            ],
        );
        accepts(
            &rt,
            rt.alloc(),
            b"--&&|| !",
            &[
                at(M, 1, 1, 0, 2),
                at(M, 1, 3, 2, 2),
                at(M, 1, 5, 4, 2),
                at(M, 1, 8, 7, 1),
            ],
        );
        accepts(
            &rt,
            rt.alloc(),
            b"(){};,",
            &[
                at(M, 1, 1, 0, 1),
                at(M, 1, 2, 1, 1),
                at(M, 1, 3, 2, 1),
                at(M, 1, 4, 3, 1),
                at(M, 1, 5, 4, 1),
                at(M, 1, 6, 5, 1),
            ],
        );
        accepts(
            &rt,
            rt.alloc(),
            b"<>+*/%",
            &[
                at(M, 1, 1, 0, 1),
                at(M, 1, 2, 1, 1),
                at(M, 1, 3, 2, 1),
                at(M, 1, 4, 3, 1),
                at(M, 1, 5, 4, 1),
                at(M, 1, 6, 5, 1),
            ],
        );
    }

    /// The code's number and the place.
    fn refusal(rt: &impl Abort, alloc: Global, text: &[u8]) -> (u8, u32, u32) {
        match read(rt, alloc, text) {
            Err(
                FileRefusal::Fault {
                    code: FileCode::StrayByte,
                    place,
                },
            ) => (10, place.line, place.column),
            Err(
                FileRefusal::Fault {
                    code: FileCode::Literal,
                    place,
                },
            ) => (11, place.line, place.column),
            _ => (0, 0, 0),
        }
    }

    #[test]
    fn first_faults(rt: HostRuntime) {
        let cases: [(&[u8], (u8, u32, u32)); 13] = [
            (b"08", (11, 1, 1)),
            (b"1a", (11, 1, 1)),
            (b"x 2147483648", (11, 1, 3)),
            (b"99999999999999999999", (11, 1, 1)),
            (b"\xff", (10, 1, 1)),
            (b"a & b", (10, 1, 3)),
            (b"|", (10, 1, 1)),
            (b"&&&", (10, 1, 3)),
            (b"a\n#", (10, 2, 1)),
            (b"a\0", (10, 1, 2)),
            (b"\n 1_ #", (11, 2, 2)),
            (b"# 08", (10, 1, 1)),
            (b"x.y", (10, 1, 2)),
        ];
        for (text, wanted) in cases {
            assert_eq!(rt; refusal(&rt, rt.alloc(), text), wanted);
        }
    }

    #[test]
    fn greatest_text(rt: HostRuntime) -> Result<(), FileRefusal> {
        let Ok(text) = vec![in rt.alloc(); b'+'; 1_048_576] else {
            return Err(FileRefusal::NoMemory);
        };
        let list = read(&rt, rt.alloc(), &text)?;
        assert_eq!(rt; list.items().len(), 524_288);
        assert_eq!(rt;
            list.items().last(),
            Some(&Token {
                kind: M,
                place: Place {
                    line: 1,
                    column: 1_048_575
                },
                start: 1_048_574,
                end: 1_048_576
            })
        );
        Ok(())
    }
}
