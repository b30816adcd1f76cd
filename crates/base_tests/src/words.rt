use bb_words::word::Word;

// Two words, and their MUL, MULH, MULHSU and MULHU, from the RISC-V tests for RV32M.
const PRODUCTS: [(u32, u32, [u32; 4]); 5] = [
    (
        0xAAAA_AAAB,
        0x0002_FE7D,
        [0x0000_FF7F, 0xFFFF_0081, 0xFFFF_0081, 0x0001_FEFE],
    ),
    (
        0x0002_FE7D,
        0xAAAA_AAAB,
        [0x0000_FF7F, 0xFFFF_0081, 0x0001_FEFE, 0x0001_FEFE],
    ),
    (
        0xFF00_0000,
        0xFF00_0000,
        [0x0000_0000, 0x0001_0000, 0xFF01_0000, 0xFE01_0000],
    ),
    (
        0xFFFF_FFFF,
        0xFFFF_FFFF,
        [0x0000_0001, 0x0000_0000, 0xFFFF_FFFF, 0xFFFF_FFFE],
    ),
    (
        0xFFFF_FFFF,
        0x0000_0001,
        [0xFFFF_FFFF, 0xFFFF_FFFF, 0xFFFF_FFFF, 0x0000_0000],
    ),
];

// Two words, and their DIV, DIVU, REM and REMU, from the RISC-V tests for RV32M.
const QUOTIENTS: [(u32, u32, [u32; 4]); 7] = [
    (20, 6, [3, 3, 2, 2]),
    (0xFFFF_FFEC, 6, [0xFFFF_FFFD, 0x2AAA_AAA7, 0xFFFF_FFFE, 2]),
    (20, 0xFFFF_FFFA, [0xFFFF_FFFD, 0, 2, 20]),
    (0xFFFF_FFEC, 0xFFFF_FFFA, [3, 0, 0xFFFF_FFFE, 0xFFFF_FFEC]),
    (0x8000_0000, 0xFFFF_FFFF, [0x8000_0000, 0, 0, 0x8000_0000]),
    (
        0x8000_0000,
        0,
        [0xFFFF_FFFF, 0xFFFF_FFFF, 0x8000_0000, 0x8000_0000],
    ),
    (0, 0, [0xFFFF_FFFF, 0xFFFF_FFFF, 0, 0]),
];

// Two words, and their SLL, SRL, SRA, SLT and SLTU, from the RISC-V tests for RV32I.
const SHIFTS: [(u32, u32, [u32; 5]); 4] = [
    (
        0x2121_2121,
        7,
        [0x9090_9080, 0x0042_4242, 0x0042_4242, 0, 0],
    ),
    (
        0x2121_2121,
        0xFFFF_FFC7,
        [0x9090_9080, 0x0042_4242, 0x0042_4242, 0, 1],
    ),
    (
        0x8000_0000,
        0x7FFF_FFFF,
        [0x0000_0000, 0x0000_0001, 0xFFFF_FFFF, 1, 0],
    ),
    (
        0x8181_8181,
        14,
        [0x6060_4000, 0x0002_0606, 0xFFFE_0606, 1, 0],
    ),
];

#[test]
fn operations_of_the_manual(rt: HostRuntime) {
    for (a, b, want) in PRODUCTS {
        let (a, b) = (Word(a), Word(b));
        assert_eq!(rt;
            [a.mul(b).0, a.mulh(b).0, a.mulhsu(b).0, a.mulhu(b).0],
            want
        );
    }
    for (a, b, want) in QUOTIENTS {
        let (a, b) = (Word(a), Word(b));
        assert_eq!(rt; [a.div(b).0, a.divu(b).0, a.rem(b).0, a.remu(b).0], want);
    }
    for (a, b, want) in SHIFTS {
        let (a, b) = (Word(a), Word(b));
        let got = [a.shl(b).0, a.shr(b).0, a.sar(b).0, a.lts(b).0, a.ltu(b).0];
        assert_eq!(rt; got, want);
    }
}

#[test]
fn sums_and_bytes(rt: HostRuntime) {
    let (a, b) = (Word(1), Word(0x0403_0202));
    assert_eq!(rt; a.sub(b).add(b), a);
    assert_eq!(rt; b.sub(a).bytes_of(), [1, 2, 3, 4]);
    assert_eq!(rt; Word::word_of([1, 2, 3, 4]).add(a), b);
}
