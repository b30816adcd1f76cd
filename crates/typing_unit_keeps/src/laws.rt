//! What holds of the program of a file, and what typing answers for small files.
ghost use Rattle.typing_unit_keeps.specs.Laws.{FilesAreTyped, FilesHaveLines};
ghost use Rattle.typing_unit_keeps.specs.Examples.{SmallFiles, BrokenRules, AcceptedFiles};

use typed_tree::typed_laws::{members_lie_apart, members_lie_within};
use typing_operators::laws::operators_are_sound;

/// The program of a file whose literals are those of their types keeps every rule of typing.
pub fn files_are_typed()
    ensures { FilesAreTyped }
{
    operators_are_sound();
    members_lie_within();
    members_lie_apart();
}

/// Where the file's places are on lines of a text, so is all of its program.
pub fn files_have_lines()
    ensures { FilesHaveLines }
{}

/// Small files, and which refusal is the first.
pub fn small_files()
    ensures { SmallFiles }
{}

/// For each rule of typing a small file that breaks it.
pub fn broken_rules()
    ensures { BrokenRules }
{}

/// Small files that keep all rules.
pub fn accepted_files()
    ensures { AcceptedFiles }
{}
