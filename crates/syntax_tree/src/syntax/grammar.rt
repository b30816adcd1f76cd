//! Laws of the grammar, and what it makes of small texts.
ghost use Rattle.syntax_tree.specs.GrammarExamples.{ExpressionsDerive, StatementsDerive, UnitsDerive, NothingDerives, HeightsAre};
ghost use Rattle.syntax_tree.specs.GrammarRefusals.{WithinIsWithout, HasOneRefusal, IsNotRefused};

/// Small texts derive the trees that C11 gives them, others derive none, and trees have the heights that the limits
/// speak of.
pub fn examples_derive()
    ensures expressions { ExpressionsDerive }
    ensures statements { StatementsDerive }
    ensures units { UnitsDerive }
    ensures nothing { NothingDerives }
    ensures heights { HeightsAre }
{}

/// What the limits on nesting allow, the grammar has.
pub fn within_is_without()
    ensures { WithinIsWithout }
{}

/// A file is refused at one token and for one reason.
pub fn one_refusal()
    ensures { HasOneRefusal }
{}

/// What derives within the limits is not refused.
pub fn not_refused()
    ensures { IsNotRefused }
{}
