//! Laws of places and literals.
ghost use Rattle.syntax_in_range.specs.Laws.{DerivedIsInRange, TokensAreInRange, TextIsInRange};

/// A file that derives from tokens in range is in range.
pub fn derived_is_in_range()
    ensures { DerivedIsInRange }
{}

/// Two or more tokens of a text of bytes are in range.
pub fn tokens_are_in_range()
    ensures { TokensAreInRange }
{}

/// A file that derives from the tokens of a text of bytes is in range.
pub fn text_is_in_range()
    ensures { TextIsInRange }
{}
