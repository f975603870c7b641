//! Lines on systems whose numbers were worked by hand, from the budgets of their threads.

use asm::assemble;
use image::write;
use response_lines::{NotTold, keep, notes_on_rates, tell};
use std::alloc::Global;
use std::process::Abort;
use std::test::Fail;
use test_sessions::{CHAIN, CONTROLLER, EQUAL, SERVER};

/// A thread rings itself.
const ITSELF: &str = "memory 18 7
untyped u 0x20000 17
object ca u frame
object va u root
object pa u table
object ta u tcb
object sa u cnode 4
object b1 u notification
cap sa 1 b1 3 1
table va 0 pa
map va 0x1000 ca 4
thread ta sa 28 va 100 8 0 start 0x1000
measure 5
start: addi x17 x0 3
addi x10 x0 1
ecall
addi x17 x0 5
ecall
jal x0 start
end
";

/// The image of a text.
fn image_of(alloc: Global, text: &str) -> Result<Vec<u8>, Fail> {
    let image = assemble(alloc, text).ok().ok_or("the text is at fault")?;
    Ok(write(alloc, &image)?)
}

/// What is said of a text, at the rates that words say.
fn said_of(alloc: Global, text: &str, words: &[&str]) -> Result<String, Fail> {
    let image = image_of(alloc, text)?;
    match tell(alloc, image.as_slice(), text, words) {
        Ok(told) => Ok(told.lines),
        Err(NotTold::Wrong(said)) => Ok(said),
        Err(NotTold::Line(line)) => Ok(format!(in alloc; "line {line}")?),
        Err(_) => Err("nothing is told".into()),
    }
}

/// What is said of a text whose threads keep what it asks, or do not.
fn kept_of(alloc: Global, text: &str) -> Result<String, Fail> {
    let image = image_of(alloc, text)?;
    match keep(alloc, "it.txt", image.as_slice(), text) {
        Ok(kept) => Ok(kept.said),
        Err(NotTold::Broken(lines)) => Ok(lines),
        Err(NotTold::Line(line)) => Ok(format!(in alloc; "line {line}")?),
        Err(_) => Err("nothing is told".into()),
    }
}

/// Of the watchdog alone, of the sensor with it, and of all three: 15, 12 + 15, and 27 + 12 + 15 instructions. As many more are left at the start.
const AT_EACH_BEAT: &str = "priority 120 and above: at most 30 instructions on end (watchdog)
  line 2 (watchdog_line): watchdog rests again within 15 instructions
        15  watchdog, from the bell on
priority 110 and above: at most 54 instructions on end (sensor, watchdog)
  line 2 (watchdog_line): watchdog rests again within 27 instructions
        15  watchdog, from the bell on
        12  line 3, once
  line 3 (sensor_line): sensor rests again within 27 instructions
        12  sensor, from the bell on
        15  line 2, once
priority 100 and above: at most 108 instructions on end (control, sensor, watchdog)
  line 1 (control_line): control rests again within 54 instructions
        27  control, from the bell on
        15  line 2, once
        12  line 3, once
  line 2 (watchdog_line): watchdog rests again within 54 instructions
        15  watchdog, from the bell on
        27  line 1, once
        12  line 3, once
  line 3 (sensor_line): sensor rests again within 54 instructions
        12  sensor, from the bell on
        27  line 1, once
        15  line 2, once
";

#[test]
fn a_controller_is_told_by_its_budgets(rt: HostRuntime) -> Result<(), Fail> {
    let words = [
        "control_line",
        "1",
        "1000",
        "2",
        "1",
        "1000",
        "3",
        "1",
        "1000",
    ];
    let said = said_of(rt.alloc(), CONTROLLER, words.as_slice())?;
    assert_eq!(&rt; said.as_str(), AT_EACH_BEAT);
    let said = said_of(rt.alloc(), CONTROLLER, &[])?;
    assert!(&rt;
        said.starts_with("no rates are said: one interrupt of each line\n"),
        "{said}"
    );
    assert!(&rt; said.ends_with(AT_EACH_BEAT), "{said}");
    Ok(())
}

// 54 + 15 + 12 * (1 + 177 / 20) = 177
#[test]
fn what_comes_again_is_counted(rt: HostRuntime) -> Result<(), Fail> {
    let words = ["1", "2", "1000", "2", "1", "1000", "3", "1", "20"];
    let said = said_of(rt.alloc(), CONTROLLER, words.as_slice())?;
    let want = "
  line 1 (control_line): control rests again within 177 instructions
        27  control, from the bell on
       108  line 3, 9 times
        27  line 1, once
        15  line 2, once
";
    assert!(&rt; said.contains(want), "{said}");
    Ok(())
}

#[test]
fn what_is_rung_is_told_with_its_line(rt: HostRuntime) -> Result<(), Fail> {
    let said = said_of(rt.alloc(), CHAIN, ["1", "1", "100"].as_slice())?;
    let want = "priority 110 and above: at most 50 instructions on end (ta, tb)
  line 1 (one): ta rests again within 25 instructions
        14  tb, rung by ta at line 35
        11  ta, from the bell on
";
    assert_eq!(&rt; said.as_str(), want);
    Ok(())
}

/// What the numbers before the rows of a level, which are the only ones with so many blanks, are together.
fn sum_of_rows(said: &str) -> u64 {
    let mut sum = 0u64;
    for line in said.lines() {
        if line.starts_with("     ") {
            if let Some(word) = line.split_whitespace().next() {
                sum = sum.saturating_add(word.parse::<u64>().unwrap_or(0));
            }
        }
    }
    sum
}

#[test]
fn rows_of_a_level_with_messages_add_up(rt: HostRuntime) -> Result<(), Fail> {
    let said = said_of(rt.alloc(), SERVER, ["1", "1", "200"].as_slice())?;
    let level = "priority 100 and above: at most ";
    let (_, rows) = said.split_once(level).ok_or("nothing is said of both")?;
    let sum = sum_of_rows(rows);
    let later = format!(in rt.alloc(); " within {sum} instructions\n")?;
    let rested = format!(in rt.alloc(); "  once rested: at most {sum} instructions on end\n")?;
    assert!(&rt;
        rows.contains(later.as_str()) || rows.contains(rested.as_str()),
        "{said}"
    );
    Ok(())
}

#[test]
fn why_there_is_no_bound_is_told(rt: HostRuntime) -> Result<(), Fail> {
    let said = said_of(rt.alloc(), ITSELF, &[])?;
    assert!(&rt;
        said.contains("\npriority 100 and above: no bound\n    what ta sets going from line "),
        "{said}"
    );
    let said = said_of(
        rt.alloc(),
        EQUAL,
        ["1", "1", "16", "2", "1", "16"].as_slice(),
    )?;
    let want = "priority 100 and above: no bound at these rates
    line 1 comes every 16 instructions, and one costs 8
    line 2 comes every 16 instructions, and one costs 8
";
    assert_eq!(&rt; said.as_str(), want);
    let said = said_of(
        rt.alloc(),
        EQUAL,
        ["1", "1", "8", "2", "1", "16"].as_slice(),
    )?;
    let want = "priority 100 and above: no bound at these rates
    line 1 comes every 8 instructions, and one costs 8
";
    assert_eq!(&rt; said.as_str(), want);
    let said = said_of(rt.alloc(), EQUAL, ["1", "1", "16"].as_slice())?;
    let want = "priority 100 and above: no bound
    line 2 (two) costs these parts something, and how often it comes is not said
";
    assert_eq!(&rt; said.as_str(), want);
    Ok(())
}

#[test]
fn words_that_are_no_rate_are_refused(rt: HostRuntime) -> Result<(), Fail> {
    for words in [
        ["1", "1", "0"],
        ["64", "1", "1"],
        ["nobody", "1", "1"],
        ["1", "one", "1"],
    ] {
        let said = said_of(rt.alloc(), EQUAL, words.as_slice())?;
        assert!(&rt; said.contains("` is no rate: "), "{said}");
    }
    let said = said_of(rt.alloc(), EQUAL, ["1", "1"].as_slice())?;
    assert!(&rt; said.starts_with("error: `1 1` is no rate: "), "{said}");
    Ok(())
}

/// The controller, whose description says how often its interrupts come, and asks this of its first part.
fn asking(alloc: Global, within: &str) -> Result<String, Fail> {
    let rates = "#rate 1 1 1000 # it.sys:9\n#rate 2 1 1000\n#rate 3 1 1000\ncap control_slots 1 ";
    let text = CONTROLLER.replace(alloc, "cap control_slots 1 ", rates)?;
    let thread = "control_space 100 27 0 wait 0x1000";
    let asked = format!(in alloc; "{thread}\n{within}")?;
    Ok(text.replace(alloc, thread, asked.as_str())?)
}

#[test]
fn what_a_text_asks_is_kept_or_refused(rt: HostRuntime) -> Result<(), Fail> {
    let text = asking(rt.alloc(), "#within 54 # it.sys:12")?;
    let said = said_of(rt.alloc(), text.as_str(), &[])?;
    assert_eq!(&rt; said.as_str(), AT_EACH_BEAT);
    let said = kept_of(rt.alloc(), text.as_str())?;
    assert_eq!(&rt;
        said.as_str(),
        "control rests within 54 instructions of line 1, of 54\n"
    );
    let text = asking(rt.alloc(), "#within 53 # it.sys:12")?;
    let said = kept_of(rt.alloc(), text.as_str())?;
    let want = "it.sys:12: control rests within 54 instructions of line 1, not within 53
        27  control, from the bell on
        15  line 2, once
        12  line 3, once
";
    assert_eq!(&rt; said.as_str(), want);
    let text = asking(rt.alloc(), "#within 53")?;
    let said = kept_of(rt.alloc(), text.as_str())?;
    assert!(&rt;
        said.starts_with("it.txt:50: control rests within "),
        "{said}"
    );
    let text = asking(rt.alloc(), "#within soon")?;
    assert_eq!(&rt; kept_of(rt.alloc(), text.as_str())?.as_str(), "line 50");
    Ok(())
}

// At most 1 + n / 1000 in n steps: two in 1,000 steps, and not in 999; and three in 2,000.
#[test]
fn what_comes_more_often_than_its_rate_is_noted(rt: HostRuntime) -> Result<(), Fail> {
    let text = asking(rt.alloc(), "#within 54")?;
    let events = b"irq control_line\r\nstep 1000\nirq 1\nstep 1000\ntick\nirq 1\nirq 7\n";
    let notes = notes_on_rates(rt.alloc(), text.as_str(), "it", events.as_slice());
    assert_eq!(&rt; notes.ok().ok_or("no notes")?.as_str(), "");
    let events = b"step 5\nirq 1\nirq 2\nstep 998\nstep\nirq 1\nstep\nirq 2\nirq 1\n";
    let notes = notes_on_rates(rt.alloc(), text.as_str(), "it", events.as_slice());
    let want =
        "it:6: note: line 1 comes again after 999 steps, and its rate is at most 1 at once, and one more after each 1000 steps\n";
    assert_eq!(&rt; notes.ok().ok_or("no notes")?.as_str(), want);
    Ok(())
}
