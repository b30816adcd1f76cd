//! The laws of the size table, for what stands on it.
ghost use Rattle.size_table.specs.Pads.{ExponentIsLeast};
ghost use Rattle.size_table.specs.Table.{HoldersByteLaw, FilledLaw, BlockIsMarked, MarkingAdds, MarkingRemoves};

/// If blocks don't meet, the byte of a slot is the exponent of whichever of them holds it.
pub fn holders_byte()
    ensures { HoldersByteLaw }
{}

/// Where a part of a list is filled, the bytes of that part are the given one, and all others stay.
pub fn filling()
    ensures { FilledLaw }
{}

/// Filling the bytes of a block's slots marks the block.
pub fn block_is_marked()
    ensures { BlockIsMarked }
{}

/// Marking a block with its exponent adds it to the table.
pub fn marking_adds()
    ensures { MarkingAdds }
{}

/// Marking a block with 0 removes it from the table.
pub fn marking_removes()
    ensures { MarkingRemoves }
{}

/// The exponent of a padded size is the least one, from a slot's on, whose power is at least the size.
pub fn exponent_is_least()
    ensures { ExponentIsLeast }
{}
