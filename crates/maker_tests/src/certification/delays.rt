//! What is reported of a text that takes long, by a clock that goes on by 300 milliseconds at each look.

use crate::certification::rows::text_with;
use progress::Told;
use std::alloc::Global;
use std::cell::Cell;
use std::io;
use std::process::Abort;
use std::test::Fail;
use std::time::{Clock, Duration};
use tool::{MemorySink, certified};

/// A clock that counts how often it was looked at.
#[derive(Drop)]
struct SlowClock {
    looks: Cell<u64>,
}

impl Clock for SlowClock {
    fn monotonic(&self) -> io::Result<Duration> {
        let looks = self.looks.get().saturating_add(1);
        self.looks.set(looks);
        Ok(Duration::from_millis(looks.min(1000) * 300))
    }

    fn since_1970(&self) -> io::Result<Duration> {
        self.monotonic()
    }
}

#[test]
fn trials_end_after_a_second_and_a_line_says_so(rt: HostRuntime) -> Result<(), Fail> {
    let clock = SlowClock {
        looks: Cell::new(0),
    };
    let mut errors = MemorySink::new(rt.alloc(), 200);
    let text = text_with(
        &rt,
        "start: addi x5 x0 3\nnext: addi x5 x5 -1\nbne x5 x0 next\n",
    )?;
    let mut progress = Told::new(rt.alloc(), &clock, &mut errors);
    assert!(rt; certified(rt.alloc(), text.as_str(), &mut progress).is_ok());
    // Certificates are found after 0.3 s and judged after 0.6; at 0.9 there is time to try the first record, which is done after 1.2;
    // at 1.5 there is no more for the second.
    let told = ".. 1 s: thread 0, record 0 of 4 tried\n";
    assert_eq!(rt; errors.bytes(), told.as_bytes());
    Ok(())
}
