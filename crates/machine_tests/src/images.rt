use rv_image::error::ImageError::{BadField, BadMagic, BadVersion, Extra, Short};
use rv_image::*;
use std::alloc::{AllocError, Global};
use std::test::Fail;

// The program of three instructions that exits with 42.
const WORKED: [u8; 40] = [
    0x42, 0x41, 0x47, 0x59, 1, 0, 0, 0, 0, 0x10, 0, 0, 0, 0, 0, 0, 0, 0, 0, 0, 0, 0, 0, 0, 12, 0,
    0, 0, 0x13, 0x05, 0xA0, 0x02, 0x93, 0x08, 0x10, 0x00, 0x73, 0x00, 0x00, 0x00,
];

#[test]
fn the_worked_image(rt: HostRuntime) -> Result<(), Fail> {
    let image = read(rt.alloc(), &WORKED)?;
    assert_eq!(rt; image.version, 1);
    assert_eq!(rt; image.entry, 0x1000);
    assert_eq!(rt; image.globals.len(), 0);
    assert_eq!(rt; image.frames.len(), 0);
    assert_eq!(rt; image.initial.len(), 0);
    assert_eq!(rt;
        image.text.as_slice(),
        [0x02A0_0513, 0x0010_0893, 0x0000_0073].as_slice()
    );
    let bytes = write(rt.alloc(), &image)?;
    assert_eq!(rt; bytes.as_slice(), WORKED.as_slice());
    Ok(())
}

#[test]
fn cut_short(rt: HostRuntime) -> Result<(), Fail> {
    // (lengths from, to below, the end of the field that is short)
    let cuts = [
        (0, 4, 4),
        (4, 8, 8),
        (8, 12, 12),
        (12, 16, 16),
        (16, 20, 20),
        (20, 24, 24),
        (24, 28, 28),
        (28, 40, 40),
    ];
    for (from, to, need) in cuts {
        for len in from..to {
            assert!(rt; len < 40);
            let answer = read(rt.alloc(), &WORKED[..len]).err().ok_or("it is short")?;
            assert_eq!(rt;
                answer,
                Short {
                    need,
                    have: len as u32
                }
            );
        }
    }
    Ok(())
}

#[test]
fn one_byte_changed(rt: HostRuntime) -> Result<(), Fail> {
    // (place of the byte that becomes 255, answer)
    let answers = [
        (0, BadMagic),
        (1, BadMagic),
        (2, BadMagic),
        (3, BadMagic),
        (4, BadVersion { version: 255 }),
        (5, BadVersion { version: 65_281 }),
        (
            6,
            BadVersion {
                version: 16_711_681,
            },
        ),
        (
            7,
            BadVersion {
                version: 4_278_190_081,
            },
        ),
        (8, BadField { at: 8 }),
        (9, BadField { at: 24 }),
        (10, BadField { at: 8 }),
        (11, BadField { at: 8 }),
        (12, BadField { at: 16 }),
        (13, BadField { at: 16 }),
        (14, BadField { at: 12 }),
        (15, BadField { at: 12 }),
        (16, BadField { at: 30 }),
        (17, BadField { at: 16 }),
        (18, BadField { at: 16 }),
        (19, BadField { at: 16 }),
        (20, BadField { at: 20 }),
        (21, BadField { at: 20 }),
        (22, BadField { at: 20 }),
        (23, BadField { at: 20 }),
        (24, BadField { at: 24 }),
        (
            25,
            Short {
                need: 65_320,
                have: 40,
            },
        ),
        (26, BadField { at: 24 }),
        (27, BadField { at: 24 }),
    ];
    for (at, wanted) in answers {
        let mut bytes = WORKED;
        assert!(rt; at < 40);
        bytes[at] = 255;
        let answer = read(rt.alloc(), &bytes).err().ok_or("it is no image")?;
        assert_eq!(rt; answer, wanted);
    }
    Ok(())
}

#[test]
fn one_byte_more(rt: HostRuntime) -> Result<(), Fail> {
    let mut bytes = Vec::from_slice(rt.alloc(), &WORKED)?;
    bytes.push(0)?;
    assert!(rt; bytes.len() < 100);
    let answer = read(rt.alloc(), &bytes).err().ok_or("it goes on")?;
    assert_eq!(rt; answer, Extra { at: 40 });
    Ok(())
}

fn put(out: &mut Vec<u8>, n: u32) -> Result<(), AllocError> {
    out.extend_from_slice(&n.to_le_bytes())
}

fn repeat(out: &mut Vec<u8>, byte: u8, count: u32) -> Result<(), AllocError> {
    for _ in 0..count {
        out.push(byte)?;
    }
    Ok(())
}

// The bytes up to the initial bytes: each count and each sum is at its limit.
fn largest_header(alloc: Global) -> Result<Vec<u8>, AllocError> {
    let mut out = Vec::new(alloc);
    out.extend_from_slice(b"BAGY")?;
    put(&mut out, 1)?;
    put(&mut out, 0x1F_FFFC)?;
    put(&mut out, 131_072)?;
    repeat(&mut out, 4, 131_072)?;
    put(&mut out, 1000)?;
    for _ in 0..998 {
        put(&mut out, 8)?;
        repeat(&mut out, 4, 8)?;
    }
    put(&mut out, 4)?;
    repeat(&mut out, 20, 4)?;
    put(&mut out, 204)?;
    repeat(&mut out, 14, 204)?;
    Ok(out)
}

#[test]
fn the_largest_image(rt: HostRuntime) -> Result<(), Fail> {
    let mut bytes = largest_header(rt.alloc())?;
    put(&mut bytes, 2_097_152)?;
    repeat(&mut bytes, 0, 2_097_151)?;
    repeat(&mut bytes, 7, 1)?;
    put(&mut bytes, 2_093_056)?;
    repeat(&mut bytes, 0xAB, 2_093_056)?;
    assert_eq!(rt; bytes.len(), 4_333_500);
    let image = read(rt.alloc(), &bytes)?;
    assert_eq!(rt; image.globals.len(), 131_072);
    assert_eq!(rt; image.frames.len(), 1000);
    assert_eq!(rt; image.initial.len(), 2_097_152);
    assert_eq!(rt; image.text.len(), 523_264);
    let written = write(rt.alloc(), &image)?;
    assert!(rt; written.as_slice() == bytes.as_slice());
    Ok(())
}
