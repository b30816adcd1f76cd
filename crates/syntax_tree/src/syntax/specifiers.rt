//! The words that name a type.
ghost use Rattle.std.specs.Prelude.{◌≡◌};
ghost use Rattle.syntax_tree.specs.GrammarExpressions.{specifier_at};

use c_words::place::{At, Name};

/// The words that name a type (C11 6.7.2).
pub enum Specifier {
    /// `void`
    Void { at: At },
    /// `char`
    Char { at: At },
    /// `int`
    Int { at: At },
    /// `signed`
    Signed { at: At },
    /// `signed int`
    SignedInt { at: At },
    /// `unsigned`
    Unsigned { at: At },
    /// `unsigned int`
    UnsignedInt { at: At },
    /// `unsigned char`
    UnsignedChar { at: At },
    /// `struct tag`
    Struct { at: At, tag: Name },
}

impl Drop for Specifier {
    fn drop(self) {
        match self {
            Specifier::Void { at: _ }
            | Specifier::Char { at: _ }
            | Specifier::Int { at: _ }
            | Specifier::Signed { at: _ }
            | Specifier::SignedInt { at: _ }
            | Specifier::Unsigned { at: _ }
            | Specifier::UnsignedInt { at: _ }
            | Specifier::UnsignedChar { at: _ }
            | Specifier::Struct { at: _, tag: _ } => {}
        }
    }
}

impl Specifier {
    /// Where it stands: at its first word.
    pub fn at(&self) -> At
        ensures { result ≡ specifier_at self.now }
    {
        match self {
            Specifier::Void { at } => *at,
            Specifier::Char { at } => *at,
            Specifier::Int { at } => *at,
            Specifier::Signed { at } => *at,
            Specifier::SignedInt { at } => *at,
            Specifier::Unsigned { at } => *at,
            Specifier::UnsignedInt { at } => *at,
            Specifier::UnsignedChar { at } => *at,
            Specifier::Struct { at, .. } => *at,
        }
    }
}
