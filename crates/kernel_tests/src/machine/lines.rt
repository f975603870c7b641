//! The lines of labels.

use model::{FaultKind, KError, Label, Outcome};
use std::process::Abort;
use trace::line;

fn ran(outcome: Outcome) -> Label {
    Label::Ran {
        thread: 0x8000_c000,
        pc: 0x1008,
        outcome,
    }
}

/// Asserts the line of a label.
fn prints(rt: &impl Abort, label: Label, want: &str) {
    assert_eq!(rt; line(label).as_slice(), want.as_bytes());
}

#[test]
fn prints_each_kind_of_label(rt: HostRuntime) {
    prints(&rt, Label::Idle, "idle");
    prints(&rt, Label::Ticked, "tick");
    prints(&rt, Label::Raised(3), "irq 3");
    prints(&rt, Label::Raised(63), "irq 63");
    prints(&rt, Label::Raised(255), "irq 255");
    let wrote = Label::Wrote {
        address: 0x8001_4000,
        word: 0x2a,
    };
    prints(&rt, wrote, "write 80014000 0000002a");
    let showed = Label::Showed {
        address: 0x8001_4ffc,
        word: 0xffff_fff0,
    };
    prints(&rt, showed, "read 80014ffc fffffff0");
    prints(&rt, ran(Outcome::Waited), "8000c000 00001008 wait");
    prints(&rt, ran(Outcome::Plain), "8000c000 00001008 plain");
    prints(&rt, ran(Outcome::Completed), "8000c000 00001008 ok");
    let refused = Outcome::Refused(KError::NotEnoughMemory);
    prints(&rt, ran(refused), "8000c000 00001008 error 10");
    let faulted = Outcome::Faulted(FaultKind::Memory);
    prints(&rt, ran(faulted), "8000c000 00001008 fault 4");
    prints(&rt, ran(Outcome::Put(0x0a)), "8000c000 00001008 byte 0a");
}
