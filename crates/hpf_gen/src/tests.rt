//! One file that a hand worked out, read in pieces of several lengths.

use crate::generator::GenSource;
use hpf_io::Source;
use std::test::Fail;

/// Two frames of three elements from seed 7: elements of frame 0 begin at 7 - 32768, those of frame 1 at 38 - 32768, and
/// rise by 7.
const TWO_FRAMES: [u8; 51] = [
    0x48, 0x50, 0x46, 0x46, 1, 1, 4, 0, 0, 0, 0, 3, // the header
    1, 0, 0, 0, 0, 0xff, 0xff, 0x80, 0x07, 0xff, 0xff, 0x80, 0x0e, 0xff, 0xff, 0x80, 0x15, // frame 0
    1, 0, 0, 0, 1, 0xff, 0xff, 0x80, 0x26, 0xff, 0xff, 0x80, 0x2d, 0xff, 0xff, 0x80, 0x34, // frame 1
    0, 0, 0, 0, 2, // the end
];

#[test]
fn a_file_is_the_same_in_any_pieces(rt: HostRuntime) -> Result<(), Fail> {
    for step in [1usize, 3, 4096] {
        let mut from = GenSource::new(&[3], 7, 2);
        let mut got = Vec::new(rt.alloc());
        let mut piece = [0u8; 4096];
        for _ in 0..60 {
            let n = from.read(&mut piece[..step])?;
            for byte in &piece[..n] {
                got.push(*byte)?;
            }
        }
        assert_eq!(rt; got.as_slice(), TWO_FRAMES.as_slice(), "step {step}");
        // The end stays.
        assert_eq!(rt; from.read(&mut piece), Ok(0));
    }
    Ok(())
}
