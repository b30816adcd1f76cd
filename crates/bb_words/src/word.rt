//! Words of 32 bits, and the operations on them.
ghost use Rattle.std.specs.Prelude.{◌≡◌, ◌*ℤ◌};
ghost use Rattle.std.specs.Int.{to_le_bytes, from_le_bytes, w32};
ghost use Rattle.bb_words.specs.Numbers.{sum, difference, product, signed_high_product, mixed_high_product, unsigned_high_product};
ghost use Rattle.bb_words.specs.Numbers.{signed_quotient, unsigned_quotient, signed_remainder, unsigned_remainder, left_shift};
ghost use Rattle.bb_words.specs.Numbers.{right_shift, signed_right_shift, signed_below, unsigned_below, signed, word_of, floor_shift};

/// A word, the content of a register of RV32I: a number below 2^32.
#[derive(Clone, Copy, Debug, PartialEq, Eq)]
pub struct Word(pub u32);

impl Word {
    /// ADD: the sum, modulo 2^32.
    pub fn add(self, other: Word) -> Word
        ensures { result.0 ≡ sum self.0 other.0 }
    {
        Word(self.0.wrapping_add(other.0))
    }

    /// SUB: the difference, modulo 2^32.
    pub fn sub(self, other: Word) -> Word
        ensures { result.0 ≡ difference self.0 other.0 }
    {
        Word(self.0.wrapping_sub(other.0))
    }

    /// MUL: the product, modulo 2^32.
    pub fn mul(self, other: Word) -> Word
        ensures { result.0 ≡ product self.0 other.0 }
    {
        Word(self.0.wrapping_mul(other.0))
    }

    /// MULH: the upper word of the product of two signed words.
    #[tactic(auto, unfolding(crate::specs::Numbers::signed_high_product))]
    pub fn mulh(self, other: Word) -> Word
        ensures { result.0 ≡ signed_high_product self.0 other.0 }
    {
        Word(upper_half(signed_product(self.0, other.0)))
    }

    /// MULHSU: the upper word of the product of this word, signed, and the other, unsigned.
    #[tactic(auto, unfolding(crate::specs::Numbers::mixed_high_product))]
    pub fn mulhsu(self, other: Word) -> Word
        ensures { result.0 ≡ mixed_high_product self.0 other.0 }
    {
        let left = i64::from(self.0.cast_signed());
        let right = i64::from(other.0);
        Word(upper_half(left * right))
    }

    /// MULHU: the upper word of the product of two unsigned words.
    pub fn mulhu(self, other: Word) -> Word
        ensures { result.0 ≡ unsigned_high_product self.0 other.0 }
    {
        Word((u64::from(self.0) * u64::from(other.0) / 0x1_0000_0000) as u32)
    }

    /// DIV: the signed quotient, rounded toward zero. By zero it is all ones, and that of -2^31 by
    /// -1 is -2^31.
    #[tactic(auto, unfolding(crate::specs::Numbers::signed_quotient))]
    pub fn div(self, other: Word) -> Word
        ensures { result.0 ≡ signed_quotient self.0 other.0 }
    {
        if other.0 == 0 {
            Word(u32::MAX)
        } else {
            let quotient = self.0.cast_signed().wrapping_div(other.0.cast_signed());
            Word(quotient.cast_unsigned())
        }
    }

    /// DIVU: the unsigned quotient. By zero it is all ones.
    pub fn divu(self, other: Word) -> Word
        ensures { result.0 ≡ unsigned_quotient self.0 other.0 }
    {
        if other.0 == 0 {
            Word(u32::MAX)
        } else {
            Word(self.0 / other.0)
        }
    }

    /// REM: the signed remainder, with the sign of the dividend. By zero it is the dividend, and
    /// that of -2^31 by -1 is 0.
    #[tactic(auto, unfolding(crate::specs::Numbers::signed_remainder))]
    pub fn rem(self, other: Word) -> Word
        ensures { result.0 ≡ signed_remainder self.0 other.0 }
    {
        if other.0 == 0 {
            self
        } else {
            let rest = self.0.cast_signed().wrapping_rem(other.0.cast_signed());
            Word(rest.cast_unsigned())
        }
    }

    /// REMU: the unsigned remainder. By zero it is the dividend.
    pub fn remu(self, other: Word) -> Word
        ensures { result.0 ≡ unsigned_remainder self.0 other.0 }
    {
        if other.0 == 0 {
            self
        } else {
            Word(self.0 % other.0)
        }
    }

    /// SLL: this word shifted left by the lowest 5 bits of the other.
    pub fn shl(self, other: Word) -> Word
        ensures { result.0 ≡ left_shift self.0 other.0 }
    {
        Word(self.0 << (other.0 % 32))
    }

    /// SRL: this word shifted right by the lowest 5 bits of the other, filled with zeros.
    pub fn shr(self, other: Word) -> Word
        ensures { result.0 ≡ right_shift self.0 other.0 }
    {
        Word(self.0 >> (other.0 % 32))
    }

    /// SRA: this word shifted right by the lowest 5 bits of the other, filled with its sign.
    #[tactic(auto, unfolding(crate::specs::Numbers::signed_right_shift))]
    pub fn sar(self, other: Word) -> Word
        ensures { result.0 ≡ signed_right_shift self.0 other.0 }
    {
        Word((self.0.cast_signed() >> (other.0 % 32)).cast_unsigned())
    }

    /// SLT: 1 if this word is below the other, both signed, and 0 if not.
    #[tactic(auto, unfolding(crate::specs::Numbers::signed_below))]
    pub fn lts(self, other: Word) -> Word
        ensures { result.0 ≡ signed_below self.0 other.0 }
    {
        Word(u32::from(self.0.cast_signed() < other.0.cast_signed()))
    }

    /// SLTU: 1 if this word is below the other, both unsigned, and 0 if not.
    pub fn ltu(self, other: Word) -> Word
        ensures { result.0 ≡ unsigned_below self.0 other.0 }
    {
        Word(u32::from(self.0 < other.0))
    }

    /// The four bytes, the lowest first. It is the inverse of `word_of`.
    pub fn bytes_of(self) -> [u8; 4]
        ensures bytes { result ≡ to_le_bytes w32 self.0 }
        ensures inverse { from_le_bytes w32 result ≡ self.0 }
    {
        self.0.to_le_bytes()
    }

    /// The word of four bytes, the lowest first. It is the inverse of `bytes_of`.
    pub fn word_of(bytes: [u8; 4]) -> Word
        ensures number { result.0 ≡ from_le_bytes w32 bytes }
        ensures inverse { to_le_bytes w32 result.0 ≡ bytes }
    {
        Word(u32::from_le_bytes(bytes))
    }
}

/// The upper word of a signed product.
fn upper_half(product: i64) -> u32
    ensures { result ≡ word_of (floor_shift product 32) }
{
    ((product >> 32) as i32).cast_unsigned()
}

/// The product of two words, both signed.
fn signed_product(left: u32, right: u32) -> i64
    ensures { result ≡ signed left *ℤ signed right }
{
    i64::from(left.cast_signed()) * i64::from(right.cast_signed())
}
