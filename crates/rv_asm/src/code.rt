//! The instructions of a part, by its place and the place that it goes to.
ghost use Rattle.std.specs.Prelude.{◌≡◌, ◌≤◌, length};
ghost use Rattle.rv_asm.specs.Text.{in_reach, code_of};

use crate::parts::Part;

/// How far a branch reaches, in bytes, backwards and nearly forwards.
pub(crate) const BRANCH_REACH: u32 = 0x1000;

/// How far JAL reaches.
pub(crate) const JUMP_REACH: u32 = 0x10_0000;

/// Whether the distance from one place to another is at least -half and below half.
pub(crate) fn is_in_reach(half: u32, at: u32, to: u32) -> bool
    requires { (half ≤ 1048576) × (at ≤ 2097156) × (to ≤ 2097152) }
    ensures { result ≡ in_reach half at to }
{
    to < at + half && at <= to + half
}

/// How many instructions a part has.
pub(crate) fn length_of(part: Part, at: u32, to: u32) -> u32
    requires { (at ≤ 2097152) × (to ≤ 2097152) }
    ensures { result ≡ length (code_of part at to) }
{
    match part {
        Part::Plain(_) => 1,
        Part::Label(_) => 0,
        Part::Branch { .. } => {
            if is_in_reach(BRANCH_REACH, at, to) {
                1
            } else if is_in_reach(JUMP_REACH, at + 4, to) {
                2
            } else {
                3
            }
        }
        Part::Jump { .. } => {
            if is_in_reach(JUMP_REACH, at, to) {
                1
            } else {
                2
            }
        }
    }
}
