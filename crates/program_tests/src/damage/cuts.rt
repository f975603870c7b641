//! Each beginning of a sample.
//!
//! All fields have 4 bytes, but for the budget of a thread and the constant of a record, which have 8. A cut falls
//! into one field, and is reported at its first byte. Where the wide ones are follows from the counts of the headers:
//!
//! | image | before its thread | thread's header | registers | program | records from | wide fields |
//! |---|---|---|---|---|---|---|
//! | bell | 236 | 52 | 0 | 4 words | 304 | 256; 320 |
//! | solo | 236 | 52 | 0 | 7 words | 316, 340, 384 | 256; 332, 356, 400 |
//! | worker | 356 | 52 | 3 | 29 words | 548, 608, 704 | 376; 564, 624, 720 |
//! | .. its receiver | 764 | 52 | 1 | 3 words | 836 | 784; 852 |
//!
//! The budget is after 20 bytes of its thread, and a constant after 16 of its record.

use crate::images::{bell, solo, worker};
use model::Refusal;
use std::process::Abort;
use std::test::Fail;
use verify::verify;

/// Asserts that each beginning of an image is refused at the field that it cuts.
fn is_told_where_it_is_cut(
    rt: &(impl Abort + AllocGlobal),
    image: &[u8],
    wide: &[usize],
) -> Result<(), Fail> {
    for len in 0..image.len() {
        let beginning = image.get(..len).ok_or("a beginning")?;
        let mut field = len - len % 4;
        for place in wide {
            if field == place.saturating_add(4) {
                field = *place;
            }
        }
        let want = Refusal::Truncated {
            offset: field as u64,
        };
        assert_eq!(rt; verify(rt.alloc(), beginning).err(), Some(want), "at {len}");
    }
    Ok(())
}

#[test]
fn each_beginning_is_truncated(rt: HostRuntime) -> Result<(), Fail> {
    let image = bell(rt.alloc())?;
    is_told_where_it_is_cut(&rt, image.as_slice(), &[256, 320])?;
    let image = solo(rt.alloc())?;
    is_told_where_it_is_cut(&rt, image.as_slice(), &[256, 332, 356, 400])?;
    let image = worker(rt.alloc())?;
    is_told_where_it_is_cut(&rt, image.as_slice(), &[376, 564, 624, 720, 784, 852])
}

#[test]
fn solo_is_cut_in_three_fields(rt: HostRuntime) -> Result<(), Fail> {
    let image = solo(rt.alloc())?;
    assert_eq!(rt; image.len(), 428);
    for (len, offset) in [(3, 0), (261, 256), (335, 332)] {
        let beginning = image.as_slice().get(..len).ok_or("a beginning")?;
        let want = Refusal::Truncated { offset };
        assert_eq!(rt; verify(rt.alloc(), beginning).err(), Some(want));
    }
    Ok(())
}
