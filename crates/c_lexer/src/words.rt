//! The spellings of the keywords and of the punctuators.
ghost use Rattle.std.specs.Prelude.{◌≡◌, ◌≤◌, ◌<◌, length, map, bytes_eq, true, IfSome, IfOk};
ghost use Rattle.c_lexer.specs.Pieces as pieces;
ghost use Rattle.c_lexer.specs.Reading as reading;
ghost use Rattle.c_lexer.specs.Gives.{Gives, marked, mark_row, word_row};
ghost use Rattle.c_lexer.specs.Views.{token_of};

use crate::fault::Fault;
use crate::token::TokenKind;
use bb_words::list::List;
use c_words::words::{Keyword, Punctuator};
use std::alloc::{AllocError, Global};

/// The keywords of C11 (6.4.1), and `NULL` and `EOF`.
pub const KEYWORDS: [(&[u8], Keyword); 46] = [
    (b"auto", Keyword::Auto),
    (b"break", Keyword::Break),
    (b"case", Keyword::Case),
    (b"char", Keyword::Char),
    (b"const", Keyword::Const),
    (b"continue", Keyword::Continue),
    (b"default", Keyword::Default),
    (b"do", Keyword::Do),
    (b"double", Keyword::Double),
    (b"else", Keyword::Else),
    (b"enum", Keyword::Enum),
    (b"extern", Keyword::Extern),
    (b"float", Keyword::Float),
    (b"for", Keyword::For),
    (b"goto", Keyword::Goto),
    (b"if", Keyword::If),
    (b"inline", Keyword::Inline),
    (b"int", Keyword::Int),
    (b"long", Keyword::Long),
    (b"register", Keyword::Register),
    (b"restrict", Keyword::Restrict),
    (b"return", Keyword::Return),
    (b"short", Keyword::Short),
    (b"signed", Keyword::Signed),
    (b"sizeof", Keyword::Sizeof),
    (b"static", Keyword::Static),
    (b"struct", Keyword::Struct),
    (b"switch", Keyword::Switch),
    (b"typedef", Keyword::Typedef),
    (b"union", Keyword::Union),
    (b"unsigned", Keyword::Unsigned),
    (b"void", Keyword::Void),
    (b"volatile", Keyword::Volatile),
    (b"while", Keyword::While),
    (b"_Alignas", Keyword::Alignas),
    (b"_Alignof", Keyword::Alignof),
    (b"_Atomic", Keyword::Atomic),
    (b"_Bool", Keyword::Bool),
    (b"_Complex", Keyword::Complex),
    (b"_Generic", Keyword::Generic),
    (b"_Imaginary", Keyword::Imaginary),
    (b"_Noreturn", Keyword::Noreturn),
    (b"_Static_assert", Keyword::StaticAssert),
    (b"_Thread_local", Keyword::ThreadLocal),
    (b"NULL", Keyword::Null),
    (b"EOF", Keyword::Eof),
];

/// The punctuators (C11 6.4.6) but for `...`, `#` and `##`, the longest first.
pub const PUNCTUATORS: [(&[u8], Punctuator); 45] = [
    (b"<<=", Punctuator::ShiftLeftEqual),
    (b">>=", Punctuator::ShiftRightEqual),
    (b"->", Punctuator::Arrow),
    (b"++", Punctuator::PlusPlus),
    (b"--", Punctuator::MinusMinus),
    (b"<<", Punctuator::ShiftLeft),
    (b">>", Punctuator::ShiftRight),
    (b"<=", Punctuator::LessEqual),
    (b">=", Punctuator::GreaterEqual),
    (b"==", Punctuator::EqualEqual),
    (b"!=", Punctuator::BangEqual),
    (b"&&", Punctuator::AmpersandAmpersand),
    (b"||", Punctuator::BarBar),
    (b"*=", Punctuator::StarEqual),
    (b"/=", Punctuator::SlashEqual),
    (b"%=", Punctuator::PercentEqual),
    (b"+=", Punctuator::PlusEqual),
    (b"-=", Punctuator::MinusEqual),
    (b"&=", Punctuator::AmpersandEqual),
    (b"^=", Punctuator::CaretEqual),
    (b"|=", Punctuator::BarEqual),
    (b"[", Punctuator::OpenBracket),
    (b"]", Punctuator::CloseBracket),
    (b"(", Punctuator::OpenParen),
    (b")", Punctuator::CloseParen),
    (b"{", Punctuator::OpenBrace),
    (b"}", Punctuator::CloseBrace),
    (b".", Punctuator::Dot),
    (b"&", Punctuator::Ampersand),
    (b"*", Punctuator::Star),
    (b"+", Punctuator::Plus),
    (b"-", Punctuator::Minus),
    (b"~", Punctuator::Tilde),
    (b"!", Punctuator::Bang),
    (b"/", Punctuator::Slash),
    (b"%", Punctuator::Percent),
    (b"<", Punctuator::Less),
    (b">", Punctuator::Greater),
    (b"^", Punctuator::Caret),
    (b"|", Punctuator::Bar),
    (b"?", Punctuator::Question),
    (b":", Punctuator::Colon),
    (b";", Punctuator::Semicolon),
    (b"=", Punctuator::Equal),
    (b",", Punctuator::Comma),
];

/// Whether the text begins with the spelling.
pub fn begins(spelling: &[u8], text: &[u8]) -> bool
    ensures value { result ≡ pieces.begins spelling.now text.now }
    ensures within { result ≡ true → length spelling.now ≤ length text.now }
{
    text.starts_with(spelling)
}

// The first row whose spelling the text begins with.
fn first_mark(mut table: &[(&[u8], Punctuator)], text: &[u8]) -> Option<(usize, Punctuator)>
    ensures value { result ≡ mark_row (reading.first_row (λ s. pieces.begins s text.now) (map (λ row. (row.0.now, row.1)) table.entry.now)) }
    ensures within { IfSome result (λ row. row.0 ≤ length text.now) }
{
    while let [row, rest @ ..] = table {
        if begins(row.0, text) {
            return Some((row.0.len(), row.1));
        }
        table = rest;
    }
    None
}

// The first row with this spelling.
fn first_word(mut table: &[(&[u8], Keyword)], spelling: &[u8]) -> Option<Keyword>
    ensures { result ≡ word_row (reading.first_row (λ s. bytes_eq s spelling.now) (map (λ row. (row.0.now, row.1)) table.entry.now)) }
{
    while let [row, rest @ ..] = table {
        if row.0 == spelling {
            return Some(row.1);
        }
        table = rest;
    }
    None
}

/// The longest punctuator in front of the text, and how many bytes it has.
pub fn mark_at(text: &[u8]) -> Result<(Punctuator, usize), Fault>
    ensures value { marked result ≡ reading.mark_at text.now }
    ensures within { IfOk result (λ mark. mark.1 ≤ length text.now) }
{
    match first_mark(&PUNCTUATORS, text) {
        None => Err(Fault::BadByte),
        Some((len, mark)) => Ok((mark, len)),
    }
}

/// The token of an identifier's spelling: a keyword, or a name.
pub fn identifier(alloc: Global, spelling: &[u8]) -> Result<TokenKind, AllocError>
    ensures { IfOk result (λ kind. token_of kind ≡ reading.identifier spelling.now) }
{
    match first_word(&KEYWORDS, spelling) {
        Some(word) => Ok(TokenKind::Keyword(word)),
        None => Ok(TokenKind::Name(List::from_vec(Vec::from_slice(alloc, spelling)?))),
    }
}
