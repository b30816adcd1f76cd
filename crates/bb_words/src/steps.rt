//! The operations and access widths that intermediate code of both kinds has, over objects and over
//! words.

/// How many bytes an access takes, and how they are read: numbers are little endian.
#[derive(Clone, Copy, Debug, PartialEq, Eq)]
pub enum Width {
    /// One byte, read without sign.
    Byte,
    /// Two bytes, read without sign.
    Half,
    /// Two bytes, read in two's complement.
    SignedHalf,
    /// Four bytes of a number.
    Word,
    /// Four bytes of a pointer.
    Pointer,
}

/// A total operation on two words.
#[derive(Clone, Copy, Debug, PartialEq, Eq)]
pub enum ArithOp {
    /// The sum, modulo 2^32.
    Add,
    /// The difference, modulo 2^32.
    Sub,
    /// The product, modulo 2^32.
    Mul,
    /// The upper word of the signed product.
    Mulh,
    /// The upper word of the product of a signed and an unsigned word.
    Mulhsu,
    /// The upper word of the unsigned product.
    Mulhu,
    /// The signed quotient, as DIV gives it.
    Div,
    /// The unsigned quotient, as DIVU gives it.
    Divu,
    /// The signed remainder, as REM gives it.
    Rem,
    /// The unsigned remainder, as REMU gives it.
    Remu,
    /// The left shift by the count modulo 32.
    Shl,
    /// The right shift by the count modulo 32 that fills with zeros.
    Shr,
    /// The right shift by the count modulo 32 that fills with the sign.
    Sar,
    /// 1 if the first is below the second as signed words, else 0.
    Lts,
    /// 1 if the first is below the second as unsigned words, else 0.
    Ltu,
    /// Bit by bit: 1 where both have 1.
    And,
    /// Bit by bit: 1 where one of them has 1.
    Or,
    /// Bit by bit: 1 where exactly one has 1.
    Xor,
    /// 1 if both are equal, else 0.
    Equal,
    /// 1 if they differ, else 0.
    Unequal,
    /// 1 if the first is at most the second as signed words, else 0.
    AtMostSigned,
    /// 1 if the first is at most the second as unsigned words, else 0.
    AtMostUnsigned,
}

/// A division that reports where the divisor is zero.
#[derive(Clone, Copy, Debug, PartialEq, Eq)]
pub enum DivideOp {
    /// The signed quotient.
    Div,
    /// The unsigned quotient.
    Divu,
    /// The signed remainder.
    Rem,
    /// The unsigned remainder.
    Remu,
}

/// How two pointers into one object are ordered.
#[derive(Clone, Copy, Debug, PartialEq, Eq)]
pub enum OrderOp {
    /// Whether the first lies below the second.
    Below,
    /// Whether the first lies at the second or below it.
    AtMost,
    /// Whether the first lies above the second.
    Above,
    /// Whether the first lies at the second or above it.
    AtLeast,
}
