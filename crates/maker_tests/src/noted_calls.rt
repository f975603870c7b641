//! What is odd about what the parts of a system do, and about its events.

use described_systems::Joined;
use expansion::expand;
use source_gaps::Text;
use std::alloc::{AllocError, Global};
use std::process::Abort;
use std::test::Fail;
use system_notes::{notes_on_events, notes_on_threads};

/// The notes on a description, each from its line of the description on.
fn noted(alloc: Global, description: &str) -> Result<String, Fail> {
    let expansion = expand(alloc, &Joined::of(alloc, "d.sys", description)?)
        .ok()
        .ok_or("it is not expanded")?;
    let text = Text {
        file: "text",
        content: expansion.text.as_str(),
    };
    let found = notes_on_threads(alloc, &text)
        .ok()
        .ok_or("nothing is noted")?;
    let mut said = String::new(alloc);
    for line in found.lines() {
        let (place, note) = line.split_once(": text:").ok_or("no line of a text")?;
        let (_, note) = note.split_once(": note: ").ok_or("no note")?;
        write!(&mut said, "{place}: {note}\n")?;
    }
    Ok(said)
}

/// The line of a note, or none where that is `-`.
fn lines_of(alloc: Global, want: &str) -> Result<String, AllocError> {
    if want == "-" {
        return Ok(String::new(alloc));
    }
    format!(in alloc; "d.sys:{want}\n")
}

/// Of the description in each row is noted what is after `@` there, and nothing where that is `-`.
fn check(rt: &(impl AllocGlobal + Abort), rows: &str) -> Result<(), Fail> {
    for row in rows.split("\n@ ").skip(1) {
        let (want, description) = row.split_once('\n').ok_or(row)?;
        let wanted = lines_of(rt.alloc(), want)?;
        let said = noted(rt.alloc(), description)?;
        assert_eq!(rt; said.as_str(), wanted.as_str(), "{description}");
    }
    Ok(())
}

/// A line that nobody acknowledges, one that is acknowledged before the first wait alone, and one that is acknowledged.
const INTERRUPTS: &str = "
@ 3: interrupt line 7 rings b once: no way of a from a wait to the next one acknowledges it
bell b
part a 1
waits b line 7
code
again: addi x10 x0 b
addi x17 x0 5
ecall
jal x0 again
end
@ 3: interrupt line 7 rings b once: no way of a from a wait to the next one acknowledges it
bell b
part a 1
waits b line 7
code
addi x10 x0 b.line7
lui x11 18
addi x17 x0 3
ecall
again: addi x10 x0 b
addi x17 x0 5
ecall
jal x0 again
end
@ -
bell b
part a 1
waits b line 7
code
again: addi x10 x0 b
addi x17 x0 5
ecall
addi x10 x0 b.line7
lui x11 18
addi x17 x0 3
ecall
jal x0 again
end
";

/// Two parts that wait for one bell, and two of which one rings it.
const BELLS: &str = "
@ 1: a, c wait for the bell b, and each signal comes to one of them
bell b
part a 1
waits b
code
again: addi x10 x0 b
addi x17 x0 5
ecall
jal x0 again
end
part c 1
waits b
code
again: addi x10 x0 b
addi x17 x0 5
ecall
jal x0 again
end
@ -
bell b
bell other
part a 1
waits b
rings other
code
again: addi x10 x0 b
addi x17 x0 5
ecall
addi x10 x0 other
addi x17 x0 3
ecall
jal x0 again
end
part c 1
waits other
rings b
code
again: addi x10 x0 other
addi x17 x0 5
ecall
addi x10 x0 b
addi x17 x0 3
ecall
jal x0 again
end
";

/// Parts that call one another, and parts of which one calls the other.
const RINGS: &str = "
@ 14: a, c call or send to one another in a ring, and each can wait for the next for ever
door p
door q
part a 1
serves p
calls q
code
again: addi x10 x0 p
addi x17 x0 5
ecall
addi x17 x0 6
ecall
addi x10 x0 q
addi x17 x0 1
ecall
jal x0 again
end
part c 1
serves q
calls p
code
again: addi x10 x0 q
addi x17 x0 5
ecall
addi x17 x0 6
ecall
addi x10 x0 p
addi x17 x0 1
ecall
jal x0 again
end
@ -
door p
part a 1
serves p
code
again: addi x10 x0 p
addi x17 x0 5
ecall
addi x17 x0 6
ecall
jal x0 again
end
part c 1
calls p
code
again: addi x10 x0 p
addi x17 x0 1
ecall
jal x0 again
end
";

/// A server that leaves some calls without an answer, one that answers all, one to which nobody calls, and one that tells calls from
/// other messages.
const ANSWERS: &str = "
@ 7: a receives calls, and a way leads here from one of them without an answer: who called waits for ever
door p
part a 1
serves p
code
again: addi x10 x0 p
addi x17 x0 5
ecall
beq x12 x0 again
addi x17 x0 6
ecall
jal x0 again
end
part c 1
calls p
code
again: addi x10 x0 p
addi x17 x0 1
ecall
jal x0 again
end
@ -
door p
part a 1
serves p
code
addi x10 x0 p
addi x17 x0 5
ecall
again: addi x10 x0 p
addi x17 x0 2
ecall
beq x12 x0 again
jal x0 again
end
part c 1
calls p
code
again: addi x10 x0 p
addi x17 x0 1
ecall
jal x0 again
end
@ -
door p
part a 1
serves p
code
again: addi x10 x0 p
addi x17 x0 5
ecall
jal x0 again
end
part c 1
sends p
code
again: addi x10 x0 p
addi x17 x0 3
ecall
jal x0 again
end
@ -
door p
part a 1
serves p
code
again: addi x10 x0 p
addi x17 x0 5
ecall
addi x5 x0 1
beq x10 x5 again
addi x17 x0 6
ecall
jal x0 again
end
part b 1
sends p as 1
code
again: addi x10 x0 p
addi x17 x0 3
ecall
jal x0 again
end
part c 1
calls p as 2
code
again: addi x10 x0 p
addi x17 x0 1
ecall
jal x0 again
end
";

#[test]
fn lines_that_ring_once_are_noted(rt: HostRuntime) -> Result<(), Fail> {
    check(&rt, INTERRUPTS)
}

#[test]
fn bells_for_which_two_wait_are_noted(rt: HostRuntime) -> Result<(), Fail> {
    check(&rt, BELLS)
}

#[test]
fn rings_of_calls_are_noted(rt: HostRuntime) -> Result<(), Fail> {
    check(&rt, RINGS)
}

#[test]
fn calls_without_answers_are_noted(rt: HostRuntime) -> Result<(), Fail> {
    check(&rt, ANSWERS)
}

/// An interrupt of which nothing is bound is noted at its first line.
#[test]
fn interrupts_that_ring_nothing_are_noted(rt: HostRuntime) -> Result<(), Fail> {
    let text = "memory 16 4\nuntyped u 0x8000 15\nobject bell u notification\nirq line 3 bell 1\n";
    let list = b"step 3\nirq 3\nirq 5\n# irq 6\nirq 5\nirq 7\r\n";
    let found = notes_on_events(rt.alloc(), text, "e", list)
        .ok()
        .ok_or("nothing is noted")?;
    assert_eq!(&rt;
        found.as_str(),
        "e:3: note: `irq 5` rings nothing: bound are 3\ne:6: note: `irq 7` rings nothing: bound are 3\n"
    );
    Ok(())
}
