//! What the tool does with a source that is accepted.
ghost use Rattle.baggy_tool.specs.Laws.{AcceptedIsRun};

/// A source that is accepted is run, compiled and checked, unless the outside fails or memory is wanting: a call is answered
/// so where the shelf tells the source, and neither the shelf nor the notes failed.
pub fn accepted_is_run()
    ensures { AcceptedIsRun }
{
    bb_driver::laws::one_answer();
}
