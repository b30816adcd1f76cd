//! The laws of places, for what stands on them.
ghost use Rattle.buddy_heap.specs.Places.{PlaceIsLeast, OnePlace};

/// The place of a block is the least one that is clear of the others.
pub fn place_is_least()
    ensures { PlaceIsLeast }
{}

/// There is one least place at most.
pub fn one_place()
    ensures { OnePlace }
{}
