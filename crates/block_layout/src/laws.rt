//! What follows for every layout.
ghost use Rattle.block_layout.specs.Laws.{LayoutsLieWell, TypedHasSmallObjects};

/// The blocks of a layout are aligned to their sizes, meet nowhere and leave no gaps, the largest first.
pub fn layouts_lie_well()
    ensures { LayoutsLieWell }
{
    size_table::laws::exponent_is_least();
}

/// The objects of a typed program are small enough to be laid out.
pub fn typed_has_small_objects()
    ensures { TypedHasSmallObjects }
{
    typed_tree::typed_laws::types_are_small();
}
