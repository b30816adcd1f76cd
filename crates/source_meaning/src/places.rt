//! Places in the heap, for what keeps its blocks in a list.
ghost use Rattle.std.specs.Prelude.{◌≡◌, ◌≤◌};
ghost use Rattle.buddy_heap.specs.Places.{place_of, blocks_of, HaveExponents};
ghost use Rattle.source_meaning.specs.Places.{starts_at};

/// Whether a listed block, a base with an exponent, begins at `at`.
pub fn is_live(mut list: &[(u32, u8)], at: u32) -> bool
    ensures { result ≡ starts_at at (blocks_of list.entry.now) }
{
    while let [first, rest @ ..] = list {
        if first.0 == at {
            return true;
        }
        list = rest;
    }
    false
}

/// The least multiple of 2^e in the heap whose 2^e bytes meet none of the listed blocks, each a base with an exponent of at
/// most 24; `None` where there is none.
pub fn place_in(list: &[(u32, u8)], e: u8) -> Option<u32>
    requires least { 4 ≤ e }
    requires most { e ≤ 24 }
    requires exponents { HaveExponents list.now }
    ensures { result ≡ place_of (blocks_of list.now) e }
{
    buddy_heap::heap::place_in(list, e)
}
