//! The fields of instruction words, and their immediates.
ghost use Rattle.std.specs.Prelude.{◌≡◌, ◌+◌, ◌-◌, ◌*◌, ◌/◌, ◌%◌, ◌^◌, ◌<◌, ◌≤◌, nat_lt, if◌then◌else◌};
ghost use Rattle.rv_code.specs.Bits as spec;
ghost use Rattle.rv_code.specs.Formats.{opcode_of, rd_of, funct3_of, rs1_of, rs2_of, funct7_of, funct12_of};
ghost use Rattle.rv_code.specs.Formats.{i_immediate, s_immediate, b_immediate, u_immediate, j_immediate};

/// The bits of `n` from `high` down to `low`, which are fewer than 32.
#[inline]
pub fn bits(n: u32, high: u32, low: u32) -> u32
    requires order { low ≤ high }
    requires fewer { high - low < 31 }
    requires within { high < 32 }
    ensures { result ≡ spec.bits n high low }
{
    (n >> low) % (1 << (high - low + 1))
}

/// Bit `place` of `n`.
#[inline]
pub fn bit(n: u32, place: u32) -> u32
    requires { place < 32 }
    ensures { result ≡ spec.bit n place }
{
    (n >> place) % 2
}

/// The bits from `low` up, in two's complement, as a word: LLVM makes one shift of it.
#[inline]
fn signed_from(word: u32, low: u32) -> u32
    requires { low < 32 }
    ensures { result ≡ if nat_lt word 2147483648 then word / 2 ^ low else 4294967295 - (4294967295 - word) / 2 ^ low }
{
    if word < 0x8000_0000 {
        word >> low
    } else {
        u32::MAX - ((u32::MAX - word) >> low)
    }
}

/// The major opcode.
#[inline]
pub fn opcode(word: u32) -> u32
    ensures { result ≡ opcode_of word }
{
    bits(word, 6, 0)
}

/// The destination register.
#[inline]
pub fn rd(word: u32) -> u8
    ensures { result ≡ rd_of word }
{
    bits(word, 11, 7) as u8
}

/// The first function field.
#[inline]
pub fn funct3(word: u32) -> u32
    ensures { result ≡ funct3_of word }
{
    bits(word, 14, 12)
}

/// The first source register.
#[inline]
pub fn rs1(word: u32) -> u8
    ensures { result ≡ rs1_of word }
{
    bits(word, 19, 15) as u8
}

/// The second source register.
#[inline]
pub fn rs2(word: u32) -> u8
    ensures { result ≡ rs2_of word }
{
    bits(word, 24, 20) as u8
}

/// The function field above the registers.
#[inline]
pub fn funct7(word: u32) -> u32
    ensures { result ≡ funct7_of word }
{
    bits(word, 31, 25)
}

/// The highest 12 bits.
#[inline]
pub fn funct12(word: u32) -> u32
    ensures { result ≡ funct12_of word }
{
    bits(word, 31, 20)
}

/// The immediate of the I format.
#[inline]
pub fn immediate_i(word: u32) -> u32
    ensures { result ≡ i_immediate word }
{
    signed_from(word, 20)
}

/// The immediate of the S format.
#[inline]
pub fn immediate_s(word: u32) -> u32
    ensures { result ≡ s_immediate word }
{
    let high = signed_from(word, 20);
    high - high % 32 + bits(word, 11, 7)
}

/// The immediate of the B format.
#[inline]
pub fn immediate_b(word: u32) -> u32
    ensures { result ≡ b_immediate word }
{
    let high = signed_from(word, 19);
    let middle = (bit(word, 7) << 11) + (bits(word, 30, 25) << 5);
    high - high % 0x1000 + middle + (bits(word, 11, 8) << 1)
}

/// The immediate of the U format.
#[inline]
pub fn immediate_u(word: u32) -> u32
    ensures { result ≡ u_immediate word }
{
    bits(word, 31, 12) << 12
}

/// The immediate of the J format.
#[inline]
pub fn immediate_j(word: u32) -> u32
    ensures { result ≡ j_immediate word }
{
    let high = signed_from(word, 11);
    let middle = (bits(word, 19, 12) << 12) + (bit(word, 20) << 11);
    high - high % 0x10_0000 + middle + (bits(word, 30, 21) << 1)
}
