//! The laws of words and instructions, for what stands on them.
ghost use Rattle.rv_code.specs.Laws.{ReadsBack, ReadsOnly};

/// The word of an instruction whose fields fit is read as that instruction.
pub fn reads_back()
    ensures { ReadsBack }
{}

/// A word that is read as an instruction is the word of that instruction, whose fields fit.
pub fn reads_only()
    ensures { ReadsOnly }
{}
