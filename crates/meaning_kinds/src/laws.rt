//! Laws of the kinds of values.
ghost use Rattle.meaning_kinds.specs.Examples.{UntypedComeThere};
ghost use Rattle.meaning_kinds.specs.Laws.{TypedKeepsKinds, ProgramsKeepKinds, ExpressionsKeepKinds, StatementsKeepKinds};
ghost use Rattle.meaning_kinds.specs.Laws.{DeclarationsKeepKinds, StartsKeepKinds, BodiesReferToBlocks};

use typed_tree::typed_laws::aggregates_have_objects;

/// No run of a typed program ends with a value of the wrong kind.
pub fn typed_keeps_kinds()
    ensures { TypedKeepsKinds }
{
    aggregates_have_objects();
}

/// Each part of a typed program gives values of its type's kind, and leaves the locals with values of theirs.
pub fn parts_keep_kinds()
    ensures calls { ProgramsKeepKinds }
    ensures expressions { ExpressionsKeepKinds }
    ensures statements { StatementsKeepKinds }
    ensures declarations { DeclarationsKeepKinds }
    ensures starts { StartsKeepKinds }
    ensures bodies { BodiesReferToBlocks }
{
    aggregates_have_objects();
}

/// Programs that break a rule of typing come to a value of the wrong kind.
pub fn untyped_come_there()
    ensures { UntypedComeThere }
{}
