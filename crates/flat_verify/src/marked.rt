//! What holds of the tables that are computed from marks.
ghost use Rattle.flat_verify.specs.Marked.{MarkedSheetsAreExact, FirstUnmetIsFirst};

/// Marks that are exactly what the rules of a program's sheets reach are an exact table.
pub fn marked_sheets_are_exact()
    ensures { MarkedSheetsAreExact }
{}

/// The first demand of a function that a table does not meet is the function's first break by the table.
pub fn first_unmet_is_first()
    ensures { FirstUnmetIsFirst }
{}
