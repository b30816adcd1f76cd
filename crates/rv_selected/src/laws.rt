//! What holds of the parts that are selected, for what stands on it.
ghost use Rattle.rv_selected.specs.Follows.{StepsLead};
ghost use Rattle.rv_selected.specs.Laws.{PartsAreLight, LabelsStandOnce, PartsAreResolvable, PartsAreShaped, TextsHaveShape};

/// The parts need at most as many bytes as the code weighs, with every branch and jump in its longest form.
pub fn parts_are_light()
    ensures { PartsAreLight }
{}

/// The instructions of steps that compute do to the words of the control frame what flat code does to values.
pub fn steps_lead()
    ensures { StepsLead }
{}

/// Each label that the parts have stands once.
pub fn labels_stand_once()
    ensures { LabelsStandOnce }
{}

/// The parts of disciplined code whose numbers are words, and that weighs no more than a text has room for, can be resolved.
pub fn parts_are_resolvable()
    ensures { PartsAreResolvable }
{}

/// The parts are shaped: they leave x3, x4, x29 and x30 alone, and their jumps and accesses have few forms.
pub fn parts_are_shaped()
    ensures { PartsAreShaped }
{}

/// Shaped parts are resolved to words that have the shape.
pub fn texts_have_shape()
    ensures { TextsHaveShape }
{
    rv_code::laws::reads_back();
}
