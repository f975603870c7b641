//! New objects in an untyped.

use untyped::{NotEnoughMemory, place};

// An untyped of 2^16 bytes at 0x80010000.
#[test]
fn frames_stand_behind_the_watermark(rt: HostRuntime) {
    assert_eq!(rt; place(16, 0x10, 12, 2), Ok((0x1000, 0x3000)));
    assert_eq!(rt; place(16, 0x10, 12, 15), Ok((0x1000, 0x1_0000)));
    assert_eq!(rt; place(16, 0x10, 12, 16), Err(NotEnoughMemory));
    // After Revoke it is free from its start.
    assert_eq!(rt; place(16, 0, 12, 16), Ok((0, 0x1_0000)));
}
