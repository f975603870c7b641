//! The bytes of three images (`samples/bell.img`, `samples/solo.img`, `samples/worker.img`), as words of 4 bytes.

use std::alloc::Global;
use std::test::Fail;
use test_sessions::number;

/// The front of bell and of solo.
const FRONT: &str = "
    0x5359534D 1 16 4              # the magic bytes, version, memory bits, boot radix
    1 7 2 1 1 2 0 1                # how many entries each section has
    0x8000 15                      # the untyped memory: offset, bits
    0 6 0  0 8 0  0 7 0  0 6 0     # the objects: untyped, type, size
    0 2 0  0 5 4  0 4 0
    5 1 6 2 0  5 2 7 0 0           # the capabilities: CNode, index, source, rights, badge
    3 6 1                          # the interrupt: line, notification, badge
    1 0 2                          # the page table: root, address, table
    1 0x1000 0 4  1 0x2000 3 3     # the frames: root, address, frame, rights
";

/// The thread that waits for its bell for ever.
const BELL: &str = "
    4 5 28 1 100 4 0               # TCB, CNode, guard word, root, priority, budget (two words)
    0 0 0x1000                     # fault address, entry, base
    0 4 1                          # how many registers, words and records there are
    0x00100513 0x00500893          # addi x10, x0, 1; addi x17, x0, 5
    0x00000073 0xFF5FF06F          # ecall; jal x0, -12
    0 0 0 0 3 0                    # the record: point, ranges, slots, terms, constant (two words)
";

/// The thread that counts down from ten and then waits for its bell for ever.
const SOLO: &str = "
    4 5 28 1 100 24 0
    0 0 0x1000
    0 7 3
    0x00A00293 0xFFF28293          # addi x5, x0, 10; addi x5, x5, -1
    0xFE029EE3                     # bne x5, x0, -4
    0x00100513 0x00500893 0x00000073 0xFF5FF06F
    0 0 0 0 24 0
    1 1 0 1 3 0  5 1 10  5 2       # a record with a range and a term
    2 1 0 1 4 0  5 0 9  5 2
";

/// The whole of the worker: the sections, then the worker's thread, and the receiver's.
const WORKER: &str = "
    0x5359534D 1 17 5  1 12 5 0 2 2 0 2
    0x10000 16
    0 6 0  0 8 0  0 7 0  0 6 0  0 8 0  0 7 0
    0 2 0  0 2 0  0 5 4  0 5 4  0 3 0  0 1 13
    8 1 11 0 0  8 2 8 0 28  8 3 1 0 0  8 5 10 1 5  9 1 10 2 0
    1 0 2  4 0 5
    1 0x1000 0 4  4 0x1000 3 4
    6 8 28 1 100  28 0  0 0 0x1000  3 29 3
    17 1  18 4  19 1
    0x0200006F
    0x00100893 0x00200513 0xC5B7 0x00258593 0x00100613 0x02000693 0x73
    0x00100513 0x15B7 0x00658593 0x00600613 0x0693 0x0713 0x0793 0x73
    0x00400513 0xD5B7 0x00458593 0x00300613 0x02000693 0x3737 0x00300793 0x73
    0x01372023
    0x00300893 0x00500513 0x73
    0xF95FF06F
    0 3 0 0  21 0  17 1 1  18 4 4  19 1 1
    1 2 2 0  27 0  18 4 4  19 1 1
    8 1 0x018000D1 0x1000 0xFFFFFFFF 0xFFFFFFFF  8 4 0x01800636 0x6023 8 1
    8 3 0 0  20 0  17 1 1  18 4 4  19 1 1
    7 9 28 4 100  3 0  0 0 0x1000  1 3 1
    17 5
    0x00100513 0x73 0xFF9FF06F
    0 1 0 0  2 0  17 5 5
";

/// The bytes of the words of a text, in which `#` begins what is for readers.
fn bytes_of(alloc: Global, text: &str) -> Result<Vec<u8>, Fail> {
    let mut bytes = Vec::new(alloc);
    for line in text.lines() {
        let (words, _) = line.split_once('#').unwrap_or((line, ""));
        for word in words.split_whitespace() {
            bytes.extend_from_slice(&number(word)?.to_le_bytes())?;
        }
    }
    Ok(bytes)
}

/// An image of the front and a thread.
fn image_of(alloc: Global, thread: &str) -> Result<Vec<u8>, Fail> {
    let mut bytes = bytes_of(alloc, FRONT)?;
    bytes.extend_from_slice(bytes_of(alloc, thread)?.as_slice())?;
    Ok(bytes)
}

/// The 328 bytes of bell.
pub(crate) fn bell(alloc: Global) -> Result<Vec<u8>, Fail> {
    image_of(alloc, BELL)
}

/// The 428 bytes of solo.
pub(crate) fn solo(alloc: Global) -> Result<Vec<u8>, Fail> {
    image_of(alloc, SOLO)
}

/// The worker that takes a frame from its pool, and the receiver that it informs, 872 bytes.
pub(crate) fn worker(alloc: Global) -> Result<Vec<u8>, Fail> {
    bytes_of(alloc, WORKER)
}

/// An image with one word changed, which is within it.
pub(crate) fn with_word(mut image: Vec<u8>, at: usize, word: u32) -> Result<Vec<u8>, Fail> {
    if image.len() < at.saturating_add(4) {
        return Err("the word is after the image".into());
    }
    for (place, byte) in image.iter_mut().skip(at).zip(word.to_le_bytes()) {
        *place = byte;
    }
    Ok(image)
}
