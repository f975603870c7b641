//! Lists of images: one that was worked by hand, and images that come back by their lists.

use crate::assembling::images::bytes_of;
use crate::images::{bell, solo, with_word, worker};
use listed_images::{ListFault, Refusal, list};
use std::alloc::Global;
use std::test::Fail;
use test_sessions::with_line;

/// Each kind of line, a CNode that is reached by another, and a word that is no instruction.
const TEXT: &str = "memory 16 4
untyped u 0x8000 15
object code u frame
object vs u root
object pt u table
object words u frame
object pool u untyped 8
object main u tcb
object cs u cnode 2
object deep u cnode 1
object ep u endpoint
object bell u notification
irq line 3 bell 1
cap cs 0 ep 11 7
cap cs 1 line 0 0
cap cs 2 deep 0 30
cap cs 3 pool 0 0
cap deep 0 bell 1 4
cap deep 1 words 3 0
table vs 0 pt
map vs 0x1000 code 4
map vs 0x2000 words 3
data words 1 0x1000
promise ep 0 9 5 2000
thread main cs 28 vs 100 24 2 go 0x1000
buffer words
reg x5 0x8000
addi x5 x0 -10
measure 3 x5 -2
range x5 1 5000
slot cs 3 0x01800636 0x6023 cs 0
go: bne x5 x0 go
sw x5 4(x6)
lui x6 0x12
word 0
end
";

/// The objects are 4096, 4096, 4096, 4096, 256, 512, 64, 32, 16 and 16 bytes large, and each is at a multiple of its size.
const LIST: &str = "memory 16 4
# 65536 bytes of memory, 16 boot slots
# objects: 10, threads: 1, words of programs: 5
# the file: 548 bytes of version 3
untyped u0 0x8000 15 # 32768 bytes, 17536 used, 15232 free behind the last object
object o0 u0 frame # at 0x80008000, 4096 bytes
object o1 u0 root # at 0x80009000, 4096 bytes
object o2 u0 table # at 0x8000a000, 4096 bytes
object o3 u0 frame # at 0x8000b000, 4096 bytes
object o4 u0 untyped 8 # at 0x8000c000, 256 bytes
object o5 u0 tcb # at 0x8000c200, 512 bytes
object o6 u0 cnode 2 # at 0x8000c400, 64 bytes
object o7 u0 cnode 1 # at 0x8000c440, 32 bytes
object o8 u0 endpoint # at 0x8000c460, 16 bytes
object o9 u0 notification # at 0x8000c470, 16 bytes
irq i0 3 o9 1
cap o6 0 o8 11 7
cap o6 1 i0 0 0
cap o6 2 o7 0 30
cap o6 3 o4 0 0
cap o7 0 o9 1 4
cap o7 1 o3 3 0
table o1 0x0 o2
map o1 0x1000 o0 4
map o1 0x2000 o3 3
data o3 1 0x1000
promise o8 0 9 5 0x7d0
thread o5 o6 28 o1 100 24 2 l 0x1000
buffer o3
reg x5 0x8000
word 0xff600293 # 0x1000: addi x5 x0 -10
l:
measure 3 x5 -2
range x5 1 0x1388
slot o6 3 0x01800636 0x6023 o6 0
word 0x00029063 # 0x1004: bne x5 x0 0x1004
word 0x00532223 # 0x1008: sw x5 4(x6)
word 0x00012337 # 0x100c: lui x6 0x12
word 0x00000000 # 0x1010
end
#
# thread o5: priority 100, budget 24, message buffer o3, faults go to capability 0x2
# CNode o6:
#   0: o8 endpoint: call, receive, badge 7
#   1: i0: acknowledge interrupt line 3
#   2: o7 CNode: change slots
#   3: o4 untyped memory of 256 bytes: make objects
# root table o1:
#   0x1000: o0, execute
#   0x2000: o3, read, write
#
# CNode o7:
#   0: o9 notification: signal, badge 4
#   1: o3 frame: map to read, write
";

/// The list of an image.
fn list_of(alloc: Global, bytes: &[u8]) -> Result<String, Fail> {
    Ok(list(alloc, bytes).ok().ok_or("the image has no list")?)
}

/// The bytes of the image of the list of an image.
fn listed_again(alloc: Global, bytes: &[u8]) -> Result<Vec<u8>, Fail> {
    bytes_of(alloc, list_of(alloc, bytes)?.as_str())
}

#[test]
fn an_image_has_its_list(rt: HostRuntime) -> Result<(), Fail> {
    let bytes = bytes_of(rt.alloc(), TEXT)?;
    let listed = list_of(rt.alloc(), bytes.as_slice())?;
    assert_eq!(&rt; listed.as_str(), LIST);
    Ok(())
}

/// Neither a device page nor version 4 adds a byte to version 3.
#[test]
fn a_device_page_is_listed_with_its_size(rt: HostRuntime) -> Result<(), Fail> {
    let text = with_line(rt.alloc(), TEXT, 6, "object words u frame 1")?;
    let bytes = bytes_of(rt.alloc(), text.as_str())?;
    let listed = list_of(rt.alloc(), bytes.as_slice())?;
    let file = "# the file: 548 bytes of version 4";
    let want = with_line(rt.alloc(), LIST, 4, file)?;
    let page = "object o3 u0 frame 1 # at 0x8000b000, 4096 bytes";
    let want = with_line(rt.alloc(), want.as_str(), 9, page)?;
    assert_eq!(&rt; listed.as_str(), want.as_str());
    let again = bytes_of(rt.alloc(), listed.as_str())?;
    assert!(&rt; again.as_slice() == bytes.as_slice());
    Ok(())
}

#[test]
fn images_come_back_by_their_lists(rt: HostRuntime) -> Result<(), Fail> {
    let alloc = rt.alloc();
    let images = [
        bell(alloc)?,
        solo(alloc)?,
        worker(alloc)?,
        bytes_of(alloc, TEXT)?,
    ];
    for image in images {
        let again = listed_again(rt.alloc(), image.as_slice())?;
        assert!(&rt; again.as_slice() == image.as_slice());
    }
    Ok(())
}

#[test]
fn what_is_no_image_has_no_list(rt: HostRuntime) -> Result<(), Fail> {
    let wrong = with_word(bell(rt.alloc())?, 0, 0)?;
    let fault = list(rt.alloc(), wrong.as_slice()).err();
    assert_eq!(&rt; fault, Some(ListFault::Refused(Refusal::Magic)));
    Ok(())
}
