//! A description and its text, worked by hand: no slot 0 and no badge 0, the greatest objects first, a badge of its own for each
//! interrupt, a label that is called as a bell.

use described_systems::Joined;
use expansion::expand;
use std::test::Fail;

const DESCRIPTION: &str = "door ep
page shared 7 0x10
bell tick
part store 110
serves ep
pool 14 2 0x400000
writes shared
code
ep: addi x10 x0 ep
addi x18 x0 pool.slot2
lui x6 shared
addi x17 x0 5
ecall
jal x0 ep
end
part client 100
calls ep
waits tick line 4 every 400 line 3 burst 2
sees shared
budget 9
reg x8 5
code
addi x10 x0 tick.line3
entry: addi x17 x0 5
ecall
jal x0 entry
end
part bell 1
rings tick
sends ep
code
ecall
end
";

const TEXT: &str = "memory 17 5
untyped memory 0x10000 16
object store_pool memory untyped 14 # d:4
object shared memory frame # d:2
object store_code0 memory frame # d:4
object store_space memory root # d:4
object store_table0 memory table # d:4
object store_table1 memory table # d:4
object client_code0 memory frame # d:16
object client_space memory root # d:16
object client_table0 memory table # d:16
object bell_code0 memory frame # d:28
object bell_space memory root # d:28
object bell_table0 memory table # d:28
object store memory tcb # d:4
object client memory tcb # d:16
object bell memory tcb # d:28
object store_slots memory cnode 3 # d:4
object client_slots memory cnode 3 # d:16
object bell_slots memory cnode 2 # d:28
object ep memory endpoint # d:1
object tick memory notification # d:3
irq tick_line4 4 tick 1 # d:18
irq tick_line3 3 tick 2 # d:18
#rate 4 1 400 # d:18
#rate 3 2 # d:18
cap store_slots 1 ep 2 0 # d:5
cap client_slots 1 ep 9 1 # d:17
cap client_slots 2 tick 2 0 # d:18
cap client_slots 3 tick_line4 0 0 # d:18
cap client_slots 4 tick_line3 0 0 # d:18
cap bell_slots 1 tick 1 4 # d:29
cap bell_slots 2 ep 1 2 # d:30
cap store_slots 2 store_pool 0 0 # d:6
cap store_slots 3 store_slots 0 29 # d:6
cap store_slots 4 store_space 0 0 # d:6
table store_space 0x0 store_table0 # d:4
table store_space 0x400000 store_table1 # d:4
map store_space 0x1000 store_code0 4 # d:4
map store_space 0x10000 shared 3 # d:7
table client_space 0x0 client_table0 # d:16
map client_space 0x1000 client_code0 4 # d:16
map client_space 0x10000 shared 2 # d:19
table bell_space 0x0 bell_table0 # d:28
map bell_space 0x1000 bell_code0 4 # d:28
data shared 7 0x10 # d:2

thread store store_slots 29 store_space 110 auto 0 ep 0x1000 # d:4
ep: addi x10 x0 1 # d:9
addi x18 x0 6 # d:10
lui x6 0x10 # d:11
addi x17 x0 5 # d:12
ecall # d:13
jal x0 ep # d:14
end

thread client client_slots 29 client_space 100 9 0 entry_ 0x1000 # d:16
reg x8 5 # d:21
entry_: addi x10 x0 4 # d:23
entry: addi x17 x0 5 # d:24
ecall # d:25
jal x0 entry # d:26
end

thread bell bell_slots 30 bell_space 1 auto 0 entry 0x1000 # d:28
entry: ecall # d:32
end
";

/// A page that the world writes, with two first words, and one that it reads.
const DEVICES: &str = "device sensor 215 0x10
device heater
part ctl 100
sees sensor
writes heater 0x3000
code
lui x5 sensor
lui x6 heater
ecall
end
";

const DEVICES_TEXT: &str = "memory 16 4
untyped memory 0x8000 15
object sensor memory frame 1 # d:1
object heater memory frame 1 # d:2
object ctl_code0 memory frame # d:3
object ctl_space memory root # d:3
object ctl_table0 memory table # d:3
object ctl memory tcb # d:3
object ctl_slots memory cnode 1 # d:3
table ctl_space 0x0 ctl_table0 # d:3
map ctl_space 0x1000 ctl_code0 4 # d:3
map ctl_space 0x10000 sensor 2 # d:4
map ctl_space 0x3000 heater 3 # d:5
data sensor 215 0x10 # d:1

thread ctl ctl_slots 31 ctl_space 100 auto 0 entry 0x1000 # d:3
entry: lui x5 0x10 # d:7
lui x6 0x3 # d:8
ecall # d:9
end
";

#[test]
fn a_device_page_is_a_frame_of_size_1(rt: HostRuntime) -> Result<(), Fail> {
    let expansion = expand(rt.alloc(), &Joined::of(rt.alloc(), "d", DEVICES)?)
        .ok()
        .ok_or("it is not expanded")?;
    assert_eq!(&rt; expansion.text.as_str(), DEVICES_TEXT);
    Ok(())
}

#[test]
fn a_description_has_its_text(rt: HostRuntime) -> Result<(), Fail> {
    let expansion = expand(rt.alloc(), &Joined::of(rt.alloc(), "d", DESCRIPTION)?)
        .ok()
        .ok_or("it is not expanded")?;
    assert_eq!(&rt; expansion.text.as_str(), TEXT);
    Ok(())
}

/// Numbers that have names, a page of two frames, one that begins with six bytes, a promise with the badges of who calls, a message
/// buffer, and a slot at which faults are reported.
const WHOLE: &str = "let words 5
let low -8
door port
door broken
page table pages 2 1 2 words
page image from table.bin
promise port 0 words 7 7
part a 2
calls port as 3
faults broken
sees table 0x3000
sees image
buffer table
reg x3 words
code
addi x10 x0 port
addi x5 x0 low
lw x6 words(x5)
lui x7 image
end
part b words
serves port
serves broken
code
ecall
end
";

const WHOLE_TEXT: &str = "memory 17 5
untyped memory 0x10000 16
object table memory frame # d:5
object table_page1 memory frame # d:5
object image memory frame # d:6
object a_code0 memory frame # d:8
object a_space memory root # d:8
object a_table0 memory table # d:8
object b_code0 memory frame # d:21
object b_space memory root # d:21
object b_table0 memory table # d:21
object a memory tcb # d:8
object b memory tcb # d:21
object a_slots memory cnode 2 # d:8
object b_slots memory cnode 2 # d:21
object port memory endpoint # d:3
object broken memory endpoint # d:4
cap a_slots 1 port 9 3 # d:9
cap a_slots 2 broken 9 1 # d:10
cap b_slots 1 port 2 0 # d:22
cap b_slots 2 broken 2 0 # d:23
table a_space 0x0 a_table0 # d:8
map a_space 0x1000 a_code0 4 # d:8
map a_space 0x3000 table 2 # d:11
map a_space 0x4000 table_page1 2 # d:11
map a_space 0x10000 image 2 # d:12
table b_space 0x0 b_table0 # d:21
map b_space 0x1000 b_code0 4 # d:21
data table 1 2 5 # d:5
data image 0x4030201 0x605 # d:6
promise port 3 3 0 5 7 7 # d:7

thread a a_slots 30 a_space 2 auto 2 entry 0x1000 # d:8
buffer table # d:13
reg x3 5 # d:14
entry: addi x10 x0 1 # d:16
addi x5 x0 -8 # d:17
lw x6 5(x5) # d:18
lui x7 0x10 # d:19
end

thread b b_slots 30 b_space 5 auto 0 entry 0x1000 # d:21
entry: ecall # d:25
end
";

/// The text of a description with the bytes of the file that its line 6 names.
fn text_with_bytes(rt: &HostRuntime, bytes: &[u8]) -> Result<String, Fail> {
    let mut joined = Joined::of(rt.alloc(), "d", WHOLE)?;
    let mut content = Vec::new(rt.alloc());
    content.extend_from_slice(bytes)?;
    joined.put_bytes(6, "table.bin", content)?;
    let expansion = expand(rt.alloc(), &joined)
        .ok()
        .ok_or("it is not expanded")?;
    Ok(expansion.text)
}

#[test]
fn a_page_says_all_that_an_image_can(rt: HostRuntime) -> Result<(), Fail> {
    let text = text_with_bytes(&rt, &[1, 2, 3, 4, 5, 6])?;
    assert_eq!(&rt; text.as_str(), WHOLE_TEXT);
    Ok(())
}

#[test]
fn a_page_has_the_frames_that_its_bytes_need(rt: HostRuntime) -> Result<(), Fail> {
    let mut bytes = Vec::new(rt.alloc());
    bytes.resize(4097, 7u8)?;
    let text = text_with_bytes(&rt, bytes.as_slice())?;
    assert!(&rt;
        text.contains("object image_page1 memory frame # d:6\n"),
        "{text}"
    );
    assert!(&rt; text.contains("data image_page1 0x7 # d:6\n"), "{text}");
    Ok(())
}

#[test]
fn a_number_is_given_for_a_name(rt: HostRuntime) -> Result<(), Fail> {
    let description = "let n 5\npart a n\ncode\naddi x5 x0 n\nend\n";
    let mut joined = Joined::of(rt.alloc(), "d", description)?;
    joined.define("n", "7")?;
    let expansion = expand(rt.alloc(), &joined)
        .ok()
        .ok_or("it is not expanded")?;
    let text = expansion.text.as_str();
    assert!(&rt; text.contains(" 7 auto 0 entry "), "{text}");
    assert!(&rt; text.contains("addi x5 x0 7 # d:4\n"), "{text}");
    Ok(())
}
