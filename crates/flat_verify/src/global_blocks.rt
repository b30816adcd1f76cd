//! Where the global objects of a program lie.
use crate::facts::GlobalBlock;
use bb_words::list::List;

/// The blocks of a program's global objects.
#[derive(Drop)]
pub struct GlobalBlocks {
    pub globals: List<GlobalBlock>,
}
