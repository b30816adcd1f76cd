//! Texts of C and their tokens. What each has to give is read from C11 6.4.
use c_lexer::{LexError, TokenKind, lex};
use c_words::words::{Keyword, Punctuator};
use std::alloc::Global;
use std::test::Fail;

/// A token without the memory that it owns.
#[derive(Clone, Copy, Debug, PartialEq, Eq)]
enum Seen<'a> {
    Name(&'a [u8]),
    Number(u32, bool),
    Character(u8),
    StringLiteral(&'a [u8]),
    Keyword(Keyword),
    Punctuator(Punctuator),
}

fn shown(kind: &TokenKind) -> Seen<'_> {
    match kind {
        TokenKind::Name(name) => Seen::Name(name.as_slice()),
        TokenKind::Number { value, unsigned } => Seen::Number(*value, *unsigned),
        TokenKind::Character(value) => Seen::Character(*value),
        TokenKind::StringLiteral(bytes) => Seen::StringLiteral(bytes.as_slice()),
        TokenKind::Keyword(word) => Seen::Keyword(*word),
        TokenKind::Punctuator(mark) => Seen::Punctuator(*mark),
    }
}

// The last token of a text, its place, and how many tokens there are.
type Row<'a> = (&'a [u8], Seen<'a>, u32, u32, u32, usize);

// Whether the row says what the text's tokens are.
fn is_told(alloc: Global, row: &Row<'_>) -> Result<bool, LexError> {
    let (text, kind, start, len, line, count) = *row;
    if text.len() > 100 {
        return Ok(false);
    }
    let tokens = lex(alloc, text)?;
    match tokens.as_slice().last() {
        None => Ok(count == 0),
        Some(token) => Ok(
            shown(&token.kind) == kind
                && (token.start, token.len, token.line) == (start, len, line)
                && tokens.len() == count,
        ),
    }
}

const LAST: [Row<'static>; 41] = [
    (
        b"int main(void){return 42;}",
        Seen::Punctuator(Punctuator::CloseBrace),
        25,
        1,
        1,
        10,
    ),
    (b"a_1 B2\n _x9", Seen::Name(b"_x9"), 8, 3, 2, 3),
    (b"whiles while", Seen::Keyword(Keyword::While), 7, 5, 1, 2),
    (
        b"_Static_assert",
        Seen::Keyword(Keyword::StaticAssert),
        0,
        14,
        1,
        1,
    ),
    (b"null NULL", Seen::Keyword(Keyword::Null), 5, 4, 1, 2),
    (b"EOF", Seen::Keyword(Keyword::Eof), 0, 3, 1, 1),
    (b"a>>=b", Seen::Name(b"b"), 4, 1, 1, 3),
    (
        b"a>>=",
        Seen::Punctuator(Punctuator::ShiftRightEqual),
        1,
        3,
        1,
        2,
    ),
    (b"x+++y", Seen::Name(b"y"), 4, 1, 1, 4),
    (b"x+++", Seen::Punctuator(Punctuator::Plus), 3, 1, 1, 3),
    (b"p->q", Seen::Name(b"q"), 3, 1, 1, 3),
    (b"p--", Seen::Punctuator(Punctuator::MinusMinus), 1, 2, 1, 2),
    (b"a.5", Seen::Number(5, false), 2, 1, 1, 3),
    (b"/", Seen::Punctuator(Punctuator::Slash), 0, 1, 1, 1),
    (b"/=", Seen::Punctuator(Punctuator::SlashEqual), 0, 2, 1, 1),
    (b"/* a\n * b\n **/ c", Seen::Name(b"c"), 15, 1, 3, 1),
    (b"/*/ */ d", Seen::Name(b"d"), 7, 1, 1, 1),
    (b"// a\ne//", Seen::Name(b"e"), 5, 1, 2, 1),
    (b"#include<stdio.h>f", Seen::Name(b"f"), 17, 1, 1, 1),
    (
        b"# \t include\t<string.h>\n#include <stdlib.h>\ng",
        Seen::Name(b"g"),
        43,
        1,
        3,
        1,
    ),
    (b"a\r\n\x0b\x0cb", Seen::Name(b"b"), 5, 1, 2, 2),
    (b"2147483647", Seen::Number(2147483647, false), 0, 10, 1, 1),
    (b"4294967295u", Seen::Number(4294967295, true), 0, 11, 1, 1),
    (b"5U", Seen::Number(5, true), 0, 2, 1, 1),
    (b"0", Seen::Number(0, false), 0, 1, 1, 1),
    (b"0u", Seen::Number(0, true), 0, 2, 1, 1),
    (
        b"017777777777",
        Seen::Number(2147483647, false),
        0,
        12,
        1,
        1,
    ),
    (b"020000000000", Seen::Number(2147483648, true), 0, 12, 1, 1),
    (b"037777777777", Seen::Number(4294967295, true), 0, 12, 1, 1),
    (b"0x7fffffff", Seen::Number(2147483647, false), 0, 10, 1, 1),
    (b"0X80000000", Seen::Number(2147483648, true), 0, 10, 1, 1),
    (b"0xFFFFffff", Seen::Number(4294967295, true), 0, 10, 1, 1),
    (b"'a'", Seen::Character(97), 0, 3, 1, 1),
    (b"'\"' '\\'' '\\?' '\\0'", Seen::Character(0), 14, 4, 1, 4),
    (b"'\\377'", Seen::Character(255), 0, 6, 1, 1),
    (b"'\\xff'", Seen::Character(255), 0, 6, 1, 1),
    (b"'\\x000fF'", Seen::Character(255), 0, 9, 1, 1),
    (b"\"\"", Seen::StringLiteral(b""), 0, 2, 1, 1),
    (
        b"\"\\n\\t\\r\\a\\b\\f\\v\\\\'\\\"\"",
        Seen::StringLiteral(b"\n\t\r\x07\x08\x0c\x0b\\'\""),
        0,
        21,
        1,
        1,
    ),
    (
        b"\"\\1\\12\\1234\\x4g\"",
        Seen::StringLiteral(b"\x01\nS4\x04g"),
        0,
        16,
        1,
        1,
    ),
    (
        b" /* */ // \n#include <stdio.h>",
        Seen::Number(0, false),
        0,
        0,
        0,
        0,
    ),
];

#[test]
fn tokens(rt: HostRuntime) -> Result<(), Fail> {
    for row in &LAST {
        assert!(rt; is_told(rt.alloc(), row)?, "{}", row.0.len());
    }
    Ok(())
}

// Why a text is refused, if it is.
fn refusal_of(alloc: Global, text: &[u8]) -> Option<LexError> {
    if text.len() > 2_000_000 {
        return None;
    }
    lex(alloc, text).err()
}

const REFUSED: [(&[u8], LexError); 48] = [
    (b"@", LexError::BadByte { line: 1 }),
    (b"a\n/* \n */ $", LexError::BadByte { line: 3 }),
    (b"\x80 1x", LexError::BadByte { line: 1 }),
    (b"a \\", LexError::BadByte { line: 1 }),
    (b"\x00", LexError::BadByte { line: 1 }),
    (b"2147483648", LexError::BadNumber { line: 1 }),
    (b"4294967296u", LexError::BadNumber { line: 1 }),
    (b"040000000000", LexError::BadNumber { line: 1 }),
    (b"0x100000000", LexError::BadNumber { line: 1 }),
    (
        b"99999999999999999999999999u",
        LexError::BadNumber { line: 1 },
    ),
    (b"08", LexError::BadNumber { line: 1 }),
    (b"0x", LexError::BadNumber { line: 1 }),
    (b"0xu", LexError::BadNumber { line: 1 }),
    (b"0xg", LexError::BadNumber { line: 1 }),
    (b"1uu", LexError::BadNumber { line: 1 }),
    (b"1l", LexError::BadNumber { line: 1 }),
    (b"1.5", LexError::BadNumber { line: 1 }),
    (b"0x1e+2", LexError::BadNumber { line: 1 }),
    (b"//\n1_", LexError::BadNumber { line: 2 }),
    (b"'\\400'", LexError::BadEscape { line: 1 }),
    (b"'\\x100'", LexError::BadEscape { line: 1 }),
    (b"\"\\x\"", LexError::BadEscape { line: 1 }),
    (b"\"\\8\"", LexError::BadEscape { line: 1 }),
    (b"\"\\q\n", LexError::BadEscape { line: 1 }),
    (b"\"a\\q", LexError::BadEscape { line: 1 }),
    (b"'ab'", LexError::BadEscape { line: 1 }),
    (b"/*\n\n*/''", LexError::BadEscape { line: 3 }),
    (b"'ab\n'", LexError::Unclosed { line: 1 }),
    (b"'", LexError::Unclosed { line: 1 }),
    (b"\"", LexError::Unclosed { line: 1 }),
    (b"\"ab", LexError::Unclosed { line: 1 }),
    (b"\"ab'", LexError::Unclosed { line: 1 }),
    (b"\"ab\\", LexError::Unclosed { line: 1 }),
    (b"\"ab\\\n\"", LexError::Unclosed { line: 1 }),
    (b"\n \"ab\\\"", LexError::Unclosed { line: 2 }),
    (b"/*", LexError::Unclosed { line: 1 }),
    (b"/*/", LexError::Unclosed { line: 1 }),
    (b"a\n/*\n*", LexError::Unclosed { line: 2 }),
    (b"/**/ /*\n", LexError::Unclosed { line: 1 }),
    (b"#define N 3", LexError::BadDirective { line: 1 }),
    (b"#", LexError::BadDirective { line: 1 }),
    (b"#\ninclude <stdio.h>", LexError::BadDirective { line: 1 }),
    (b"#include \"stdio.h\"", LexError::BadDirective { line: 1 }),
    (b"#include <math.h>", LexError::BadDirective { line: 1 }),
    (b"#include <stdio.h", LexError::BadDirective { line: 1 }),
    (
        b"#include <stdio.h>\n##",
        LexError::BadDirective { line: 2 },
    ),
    (b"#Include <stdio.h>", LexError::BadDirective { line: 1 }),
    (b"/**/\n#includ", LexError::BadDirective { line: 2 }),
];

#[test]
fn refusals(rt: HostRuntime) -> Result<(), Fail> {
    for (text, refusal) in REFUSED {
        assert_eq!(rt; refusal_of(rt.alloc(), text), Some(refusal));
    }
    Ok(())
}

#[test]
fn longest_text(rt: HostRuntime) -> Result<(), Fail> {
    for (len, refusal) in [
        (1_048_576, None),
        (1_048_577, Some(LexError::TooLong { length: 1_048_577 })),
    ] {
        let text = vec![in rt.alloc(); b' '; len]?;
        assert_eq!(rt; refusal_of(rt.alloc(), &text), refusal);
    }
    Ok(())
}
