//! Small programs, and what the meaning gives for them: their ends, their output, what they count and what they leave
//! behind. What is expected was worked out apart from the definitions.
ghost use Rattle.source_meaning.specs.ExamplesMoves.{WithinReach, PastTheEnd, BelowTheStart, WideSlotsAbove, WideSlotsBelow};
ghost use Rattle.source_meaning.specs.ExamplesMoves.{Members, WrappedDistance, NullDoesNotMove, SitesOfParts, SitesInOrder};
ghost use Rattle.source_meaning.specs.ExamplesMemory.{LittleEndian, Globals, MarkedBeforeMisaligned, MarkedAtThePadding, MisalignedBeforePadding};
ghost use Rattle.source_meaning.specs.ExamplesMemory.{Padding, PointersInPieces, PartsOutOfOrder, Forged, PartsAreNoNumbers, DeadMayBeKept};
ghost use Rattle.source_meaning.specs.ExamplesMemory.{DeadIsNotCompared, DeadIsNotTested, DeadBeforeAcross, Apart, Across, Difference};
ghost use Rattle.source_meaning.specs.ExamplesCopies.{StructsAreCopied, SourceFirst, ShortTarget, Upwards, Sets};
ghost use Rattle.source_meaning.specs.ExamplesCopies.{SpanPastTheLength, TooLong, BracesClear, StructParts, Strings};
ghost use Rattle.source_meaning.specs.ExamplesCalls.{Conversions, Quotients, DivisionByZero, PlaceIsReadLast, Choices, Jumps, NothingReturned, WhileIsCut};
ghost use Rattle.source_meaning.specs.ExamplesCalls.{DoIsNotCut, DoIsCut, CallIsCut, CutBeforeStack, StackIsFull, Echo, HeapIsReused, BadFree, FreedTwice};
ghost use Rattle.source_meaning.specs.ExamplesAccounts.{Layout, RoundedFrame, WideLayout, DepthIsReported};

/// Pointers move as far as they may, and what goes further is reported.
pub fn moves_run()
    ensures within_reach { WithinReach }
    ensures past_the_end { PastTheEnd }
    ensures below_the_start { BelowTheStart }
    ensures wide_slots_above { WideSlotsAbove }
    ensures wide_slots_below { WideSlotsBelow }
    ensures members { Members }
    ensures wrapped_distance { WrappedDistance }
    ensures null_does_not_move { NullDoesNotMove }
    ensures sites_of_parts { SitesOfParts }
    ensures sites_in_order { SitesInOrder }
{}

/// Bytes, words and pointers are read, written and compared as they should be.
pub fn memory_run()
    ensures little_endian { LittleEndian }
    ensures globals { Globals }
    ensures marked_before_misaligned { MarkedBeforeMisaligned }
    ensures marked_at_the_padding { MarkedAtThePadding }
    ensures misaligned_before_padding { MisalignedBeforePadding }
    ensures padding { Padding }
    ensures pointers_in_pieces { PointersInPieces }
    ensures parts_out_of_order { PartsOutOfOrder }
    ensures forged { Forged }
    ensures parts_are_no_numbers { PartsAreNoNumbers }
    ensures dead_may_be_kept { DeadMayBeKept }
    ensures dead_is_not_compared { DeadIsNotCompared }
    ensures dead_is_not_tested { DeadIsNotTested }
    ensures dead_before_across { DeadBeforeAcross }
    ensures apart { Apart }
    ensures across { Across }
    ensures difference { Difference }
{}

/// Structs and ranges are copied, and objects initialized, as they should be.
pub fn copies_run()
    ensures structs_are_copied { StructsAreCopied }
    ensures source_first { SourceFirst }
    ensures short_target { ShortTarget }
    ensures upwards { Upwards }
    ensures sets { Sets }
    ensures span_past_the_length { SpanPastTheLength }
    ensures too_long { TooLong }
    ensures braces_clear { BracesClear }
    ensures struct_parts { StructParts }
    ensures strings { Strings }
{}

/// Operators, loops, calls, the heap and the outside do what they should, and runs are cut where they should be.
pub fn calls_run()
    ensures conversions { Conversions }
    ensures quotients { Quotients }
    ensures division_by_zero { DivisionByZero }
    ensures place_is_read_last { PlaceIsReadLast }
    ensures choices { Choices }
    ensures jumps { Jumps }
    ensures nothing_returned { NothingReturned }
    ensures while_is_cut { WhileIsCut }
    ensures do_is_not_cut { DoIsNotCut }
    ensures do_is_cut { DoIsCut }
    ensures call_is_cut { CallIsCut }
    ensures cut_before_stack { CutBeforeStack }
    ensures stack_is_full { StackIsFull }
    ensures echo { Echo }
    ensures heap_is_reused { HeapIsReused }
    ensures bad_free { BadFree }
    ensures freed_twice { FreedTwice }
{}

/// Objects lie where their pads say, and no more than 4,096 calls are live.
pub fn accounts_run()
    ensures layout { Layout }
    ensures rounded_frame { RoundedFrame }
    ensures wide_layout { WideLayout }
    ensures depth_is_reported { DepthIsReported }
{}
