//! Mid code and flat code together: what small programs come to, and what is as large as the limits allow.
ghost use Rattle.middle_tests.specs.Examples.{Examples, Limits};

/// What the mid code and the flat code of small programs of numbers come to.
pub fn examples_run()
    ensures { Examples }
{}

/// A program of 4,096 nodes and one of 4,097, a function of 250 values and one of 251.
pub fn limits_hold()
    ensures { Limits }
{}
