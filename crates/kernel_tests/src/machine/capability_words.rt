//! Capabilities and their words.

use crate::machine::rows::row;
use capwords::{is_capability, pack, unpack};
use std::test::Fail;

/// The two words, and the capability as `Debug` prints it.
const ROWS: &str = "\
0 0 | Some(Empty)
0x01000101 0x10000 | Some(Untyped { offset: 65536, bits: 16, watermark: 65536 })
0x00C00002 0 | Some(Tcb { offset: 49152 })
0x000010B3 7 | Some(Endpoint { offset: 16, rights: Rights(11), badge: 7 })
0x00001024 0 | Some(Notification { offset: 16, rights: Rights(2), badge: 0 })
0x00C20045 0x1C | Some(CNode { offset: 49664, radix: 4, guard: 28 })
0x01100036 0 | Some(Frame { offset: 69632, rights: Rights(3), mapping: None })
0x01100636 0x6013 | Some(Frame { offset: 69632, rights: Rights(3), \
mapping: Some(FrameMapping { root: 36864, page: 3, rights: Rights(3) }) })
0x00A00007 0x00800013 | Some(PageTable { offset: 40960, mapping: Some(TableMapping { root: 36864, region: 1 }) })
0x00900008 0 | Some(RootTable { offset: 36864 })
9 0 | Some(InterruptControl)
10 63 | Some(InterruptHandler { line: 63 })";

/// Two words that are no capability's, and why.
const OTHERS: &str = "\
0x00001043 0 | a rights bit that an endpoint does not have
0x01100636 0 | mapping rights of a frame that is not mapped
0x00A00007 0x00802013 | a spare bit of a page table's word
0x00C10002 0 | an offset that is no multiple of the object's size
11 0 | a kind that there is not
10 64 | a line above 63";

#[test]
fn capabilities_have_these_words(rt: HostRuntime) -> Result<(), Fail> {
    for line in ROWS.lines() {
        let (words, want) = row(line)?;
        let found = unpack(words);
        let printed = format!(in rt.alloc(); "{found:?}")?;
        assert_eq!(rt; printed.as_str(), want);
        let capability = found.ok_or(line)?;
        assert!(rt; is_capability(capability));
        assert_eq!(rt; pack(capability), words, "{line}");
    }
    for line in OTHERS.lines() {
        let (words, _) = row(line)?;
        assert!(rt; unpack(words).is_none(), "{line}");
    }
    Ok(())
}
