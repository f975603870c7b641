//! Bytes and words in memory.

use pmem::Mem;
use std::test::Fail;

#[test]
fn a_word_stands_in_four_bytes_lowest_first(rt: HostRuntime) -> Result<(), Fail> {
    let mut memory = Mem::new(rt.alloc(), 16)?;
    assert!(rt; memory.len() == 0x1_0000);
    memory.write32(0x1001, 0x1234_5678);
    assert_eq!(rt; memory.read8(0x1001), 0x78);
    assert_eq!(rt; memory.read8(0x1004), 0x12);
    assert_eq!(rt; memory.read32(0x1000), 0x3456_7800);
    memory.write8(0x1002, 0xff);
    assert_eq!(rt; memory.read32(0x1001), 0x1234_ff78);
    memory.zero(0x1002, 2);
    assert_eq!(rt; memory.read32(0x1001), 0x1200_0078);
    // The greatest memory is all zero.
    let memory = Mem::new(rt.alloc(), 24)?;
    assert!(rt; memory.len() == 0x100_0000);
    assert_eq!(rt; memory.read32(0xff_fffc), 0);
    Ok(())
}
