//! Laws of typing.
ghost use Rattle.typing_operators.specs.Sound.{OperatorsAreSound};

/// What an operator's rule accepts keeps the rules of typing.
pub fn operators_are_sound()
    ensures { OperatorsAreSound }
{}
