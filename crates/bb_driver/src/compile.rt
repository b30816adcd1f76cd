//! From a text to its image.
ghost use Rattle.std.specs.Prelude.{◌<◌, ◌^◌, length};
ghost use Rattle.typed_tree.specs.TypedTree.{CProgram};
ghost use Rattle.lowering_counts.specs.Built.{IsBuilt};
ghost use Rattle.bb_driver.specs.Sources.{Accepts};
ghost use Rattle.bb_driver.specs.Compiles.{Compiles, IsAnswered};

use crate::error::CompileError;
use crate::image::image_of;
use crate::laws::{layers_make_right, one_answer};
use crate::source::{lay_out, read};
use bb_words::list::List;
use block_layout::globals::Layout;
use lowering::lower::lower;
use lowering_counts::counts::counts_of;
use mid_code::code::Mid;
use mid_code::safe::SafeSites;
use rv_image::image::Image;
use std::alloc::Global;

/// What a text is compiled to.
#[derive(Drop)]
pub struct Compiled {
    /// The image, which is right for the program of the text.
    pub image: Image,
    /// Where the program's global objects lie.
    pub layout: Layout,
    /// The mid code that the image was made of.
    pub mid: Mid,
    /// The pointer moves of the mid code that the image does not check: none.
    pub safe: SafeSites,
    /// How many nodes the program has.
    pub nodes: u32,
}

/// The image of a text: the text is accepted, and the image is right for its program. So each of its runs is safe, and does
/// what the program means. Or the first refusal of tokens, grammar, typing, room for objects and other limits, in this order;
/// or the program is accepted and has a form that is not built.
pub fn compile(alloc: Global, text: &[u8]) -> Result<Compiled, CompileError>
    requires { length text.now < 2 ^ 32 }
    ensures answers { Compiles text.now result }
    // So a text that is accepted, and whose program is built, is compiled, unless memory runs out.
    ensures complete { (p : CProgram) → Accepts text.now p → IsBuilt p → IsAnswered result }
{
    one_answer();
    image_or_refusal(alloc, text)
}

// What a text is compiled to, or why it has no image.
fn image_or_refusal(alloc: Global, text: &[u8]) -> Result<Compiled, CompileError>
    requires { length text.now < 2 ^ 32 }
    ensures { Compiles text.now result }
{
    layers_make_right();
    number_code::laws::code_is_built();
    number_code::laws::code_fits();
    number_code::laws::code_is_calm();
    number_code::laws::main_fits();
    number_code::laws::no_frames();
    select_runs::laws::selection_runs();
    select_runs::laws::calm_is_in_reach();
    let program = read(alloc, text)?;
    let layout = lay_out(alloc, &program)?;
    let mid = lower(alloc, &program)?;
    let image = image_of(alloc, &mid)?;
    let counts = counts_of(alloc, &program)?;
    Ok(Compiled {
        image,
        layout,
        mid,
        safe: SafeSites {
            sites: List::new(alloc),
        },
        nodes: counts.nodes,
    })
}
