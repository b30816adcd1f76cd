//! What the layers make.
ghost use Rattle.bb_driver.specs.KeepsKinds.{FilesKeepKinds};
ghost use Rattle.bb_driver.specs.Laws.{LayersMakeRight};
ghost use Rattle.bb_driver.specs.OneAnswer.{HasOneAnswer};

/// Where each layer of the compiler keeps its contract, the image is right for the program: each of its runs is safe, and
/// means what the program means.
pub fn layers_make_right()
    ensures { LayersMakeRight }
{
    flat_code_laws::laws::output_begins();
    flat_code_laws::laws::trail_begins();
    flat_code_laws::laws::tells_begin();
    flat_code_laws::laws::all_by_later();
    flat_code_laws::laws::safe_appends();
    flat_code_laws::laws::traps_are_of_accesses();
    flat_discipline::laws::disciplined_is_safe();
    rv_machine_laws::laws::table_is_kept();
}

/// A text is the file of one program at most, one that is accepted is not refused, and one that is refused is refused in one
/// way. So each answer of the compiler comes exactly where it holds.
pub fn one_answer()
    ensures { HasOneAnswer }
{
    c_lexer::one_reading();
    c_parser_rules::one_unit();
    syntax_tree::syntax::grammar::not_refused();
    syntax_tree::syntax::grammar::one_refusal();
    typing_accepted::laws::accepted_is_typed();
    typing_accepted::laws::files_fail_at_first();
}

/// No run of the program of an accepted file comes to a value of the wrong kind.
pub fn files_keep_kinds()
    ensures { FilesKeepKinds }
{
    syntax_in_range::text_is_in_range();
    typing_accepted::laws::accepted_keeps_rules();
    meaning_kinds::laws::typed_keeps_kinds();
}
