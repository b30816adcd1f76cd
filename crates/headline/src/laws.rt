//! The promise of a run.
ghost use Rattle.headline.specs.Headline.{Headline};

/// A run of a file of C that is accepted and built is safe, ends as the program does and writes what the program does, as long
/// as the outside does not fail and memory is not wanting.
pub fn headline()
    ensures { Headline }
{
    bb_driver::laws::one_answer();
    baggy_tool::laws::accepted_is_run();
}
