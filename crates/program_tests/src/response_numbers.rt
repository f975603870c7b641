//! Numbers of systems whose longest runs are known: by a search of all lists of events that keep the rates, or by the budgets that were worked
//! by hand.

use asm::assemble;
use image::write;
use responses::{Bound, Rate, Response, respond, responded};
use std::alloc::Global;
use std::process::Abort;
use std::test::Fail;
use test_sessions::{CHAIN, CONTROLLER, EQUAL, SERVER, lines_before};
use verify::verify;

/// A thread below rings the one that waits for a line.
const BELOW: &str = "memory 18 7
untyped u 0x20000 17
object ca u frame
object va u root
object pa u table
object cb u frame
object vb u root
object pb u table
object ta u tcb
object tb u tcb
object sa u cnode 4
object sb u cnode 4
object b1 u notification
object b2 u notification
irq one 1 b1 1
cap sa 1 b1 2 0
cap sa 2 one 0 0
table va 0 pa
map va 0x1000 ca 4
cap sb 1 b1 1 2
cap sb 2 b2 3 1
table vb 0 pb
map vb 0x1000 cb 4
thread ta sa 28 va 100 8 0 start 0x1000
measure 3
start: addi x10 x0 1
addi x17 x0 5
ecall
addi x17 x0 1
lui x11 18
addi x10 x0 2
ecall
jal x0 start
end
thread tb sb 28 vb 90 20 0 start 0x1000
measure 7
start: addi x17 x0 3
addi x10 x0 1
ecall
addi x10 x0 2
ecall
addi x17 x0 5
ecall
jal x0 start
end
";

/// The second thread of `SERVER` as one that never answers.
const DEAF: &str = "thread tb sb 28 vb 110 4 0 start 0x1000
measure 3
start: addi x10 x0 1
addi x17 x0 5
ecall
jal x0 start
end
";

/// A thread with a line calls another one, which never answers.
fn deaf(alloc: Global) -> Result<String, Fail> {
    let mut text = lines_before(alloc, SERVER, 39)?;
    text.push_str(DEAF)?;
    Ok(text)
}

/// Two drivers, each with a line, call a filter above them.
const GATEWAY: &str = "memory 18 7
untyped u 0x20000 17
object filter_code u frame
object filter_space u root
object filter_table u table
object drva_code u frame
object drva_space u root
object drva_table u table
object drvb_code u frame
object drvb_space u root
object drvb_table u table
object shared u frame
object filter u tcb
object drva u tcb
object drvb u tcb
object filter_slots u cnode 4
object drva_slots u cnode 4
object drvb_slots u cnode 4
object door u endpoint
object rxa u notification
object rxb u notification
irq linea 1 rxa 1
irq lineb 2 rxb 1
cap filter_slots 1 door 2 0
cap drva_slots 1 rxa 2 0
cap drva_slots 2 linea 0 0
cap drva_slots 3 door 9 1
cap drvb_slots 1 rxb 2 0
cap drvb_slots 2 lineb 0 0
cap drvb_slots 3 door 9 2
table filter_space 0 filter_table
map filter_space 0x1000 filter_code 4
map filter_space 0x2000 shared 3
table drva_space 0 drva_table
map drva_space 0x1000 drva_code 4
table drvb_space 0 drvb_table
map drvb_space 0x1000 drvb_code 4
thread filter filter_slots 28 filter_space 110 14 0 start 0x1000
measure 4
start: lui x6 2
addi x10 x0 1
addi x17 x0 5
ecall
measure 13
range x6 0x2000 0x2000
serve: addi x7 x0 1
andi x5 x12 0xff
slli x5 x5 2
add x5 x5 x6
bne x10 x7 other
sw x12 0(x5)
andi x12 x12 1
xori x12 x12 1
jal x0 reply
measure 5
range x5 0x2000 0x23FC
range x6 0x2000 0x2000
other: lw x12 0(x5)
measure 4
range x6 0x2000 0x2000
reply: addi x10 x0 1
addi x11 x0 1
addi x17 x0 2
ecall
jal x0 serve
end
thread drva drva_slots 28 drva_space 100 8 0 start 0x1000
measure 3
start: addi x10 x0 1
addi x17 x0 5
ecall
addi x8 x8 1
addi x12 x8 0
addi x10 x0 3
addi x11 x0 1
addi x17 x0 1
ecall
addi x17 x0 1
addi x10 x0 2
lui x11 18
ecall
jal x0 start
end
thread drvb drvb_slots 28 drvb_space 100 11 0 start 0x1000
measure 3
start: addi x10 x0 1
addi x17 x0 5
ecall
addi x12 x0 1
addi x10 x0 3
addi x11 x0 1
addi x17 x0 1
ecall
addi x10 x12 48
addi x17 x0 9
ecall
addi x17 x0 1
addi x10 x0 2
lui x11 18
ecall
jal x0 start
end
";

/// What is found of the threads of a text of a priority and above, where each of the lines 1 to `lines` comes once in so many steps; nothing where there
/// is no bound.
fn bound_of(
    alloc: Global,
    text: &str,
    priority: u32,
    lines: u32,
    period: u64,
) -> Result<Option<Bound>, Fail> {
    let image = assemble(alloc, text).ok().ok_or("the text is at fault")?;
    let bytes = write(alloc, &image)?;
    let accepted = verify(alloc, bytes.as_slice())
        .ok()
        .ok_or("the image is refused")?;
    let mut rates = Vec::new(alloc);
    for line in 1..=lines {
        rates.push(Rate {
            line,
            burst: 1,
            period,
        })?;
    }
    match respond(alloc, &accepted, priority, rates.as_slice()) {
        Ok(Response::Bound(bound)) => Ok(Some(bound)),
        Ok(_) => Ok(None),
        Err(_) => Err("there is no memory".into()),
    }
}

/// How soon they rest once they have rested; 0 where there is no bound.
fn rests_within(
    alloc: Global,
    text: &str,
    priority: u32,
    lines: u32,
    period: u64,
) -> Result<u64, Fail> {
    match bound_of(alloc, text, priority, lines, period)? {
        Some(bound) => Ok(bound.later),
        None => Ok(0),
    }
}

/// Of how many threads it is said that they wait at their inputs then, and how many lines are dealt with.
fn settled_and_tended(
    alloc: Global,
    text: &str,
    priority: u32,
    lines: u32,
) -> Result<(usize, usize), Fail> {
    match bound_of(alloc, text, priority, lines, 1000)? {
        Some(bound) => {
            let mut settled = 0usize;
            for input in &bound.inputs {
                settled = settled.saturating_add(usize::from(input.is_some()));
            }
            Ok((settled, bound.tended.len()))
        }
        None => Ok((0, 0)),
    }
}

/// Whether the shares of each level's bound are the bound, and the stretches of each line's price no more.
fn add_up(alloc: Global, text: &str) -> Result<bool, Fail> {
    let image = assemble(alloc, text).ok().ok_or("the text is at fault")?;
    let bytes = write(alloc, &image)?;
    let mut rates = Vec::new(alloc);
    for line in 1..4 {
        rates.push(Rate {
            line,
            burst: 2,
            period: 1000,
        })?;
    }
    let all = responded(alloc, bytes.as_slice(), rates.as_slice())
        .ok()
        .ok_or("the image is refused")?;
    for row in &all.rows {
        if let Response::Bound(bound) = &row.response {
            let mut shares = 0u64;
            for share in &row.parts.shares {
                shares = shares.saturating_add(share.steps);
            }
            if shares != bound.later {
                return Ok(false);
            }
            for line in &row.parts.lines {
                let mut stretches = 0u64;
                for stretch in &line.stretches {
                    stretches = stretches.saturating_add(stretch.steps);
                }
                if bound.later < stretches {
                    return Ok(false);
                }
            }
        } else {
            return Ok(false);
        }
    }
    Ok(true)
}

#[test]
fn shares_are_the_bound(rt: HostRuntime) -> Result<(), Fail> {
    assert!(rt; add_up(rt.alloc(), EQUAL)?);
    assert!(rt; add_up(rt.alloc(), CHAIN)?);
    assert!(rt; add_up(rt.alloc(), SERVER)?);
    assert!(rt; add_up(rt.alloc(), deaf(rt.alloc())?.as_str())?);
    assert!(rt; add_up(rt.alloc(), GATEWAY)?);
    assert!(rt; add_up(rt.alloc(), CONTROLLER)?);
    Ok(())
}

#[test]
fn equals_count(rt: HostRuntime) -> Result<(), Fail> {
    assert_eq!(rt; rests_within(rt.alloc(), EQUAL, 100, 2, 20)?, 16);
    Ok(())
}

#[test]
fn rings_are_paid_for(rt: HostRuntime) -> Result<(), Fail> {
    assert_eq!(rt; rests_within(rt.alloc(), CHAIN, 110, 1, 100)?, 25);
    Ok(())
}

#[test]
fn a_ring_from_below_counts(rt: HostRuntime) -> Result<(), Fail> {
    assert_eq!(rt; rests_within(rt.alloc(), BELOW, 100, 1, 20)?, 16);
    Ok(())
}

// The server runs 16 from a message on, and rests whenever the level does, as the client does. The client runs 9 after its Call, and 9 from its line on,
// with 25 that the Call sets going: so one interrupt costs 34, and nothing is left at rest.
#[test]
fn calls_are_paid_for(rt: HostRuntime) -> Result<(), Fail> {
    assert_eq!(rt; rests_within(rt.alloc(), SERVER, 100, 1, 200)?, 34);
    assert_eq!(rt; settled_and_tended(rt.alloc(), SERVER, 100, 1)?, (2, 1));
    Ok(())
}

// An interrupt of the first driver costs 8 and 8 with 14 of the filter, one of the second 11 and 11 with 14. Where the drivers are below the filter, one
// step of theirs brings it one message.
#[test]
fn drivers_rest_with_their_filter(rt: HostRuntime) -> Result<(), Fail> {
    assert_eq!(rt; rests_within(rt.alloc(), GATEWAY, 110, 2, 400)?, 14);
    assert_eq!(rt; rests_within(rt.alloc(), GATEWAY, 100, 2, 400)?, 66);
    assert_eq!(rt; settled_and_tended(rt.alloc(), GATEWAY, 100, 2)?, (3, 2));
    Ok(())
}

// The server runs 4 from a message on, and its client 9 after its Call, and 9 from its line on, with 13 that the Call sets going: 22. The client may wait
// for its answer for ever, so its line is not dealt with: at rest 22 stand for a word, 22 for the line, 9 for the client, whose message is taken at
// once; and 22 come with one interrupt.
#[test]
fn who_is_not_answered_is_not_settled(rt: HostRuntime) -> Result<(), Fail> {
    let deaf = deaf(rt.alloc())?;
    let text = deaf.as_str();
    assert_eq!(rt; rests_within(rt.alloc(), text, 100, 1, 200)?, 75);
    assert_eq!(rt; settled_and_tended(rt.alloc(), text, 100, 1)?, (1, 0));
    Ok(())
}

#[test]
fn a_controller_rests_with_its_sensor_and_watchdog(rt: HostRuntime) -> Result<(), Fail> {
    assert_eq!(rt; rests_within(rt.alloc(), CONTROLLER, 100, 3, 1000)?, 54);
    assert_eq!(rt; rests_within(rt.alloc(), CONTROLLER, 110, 3, 1000)?, 27);
    assert_eq!(rt; rests_within(rt.alloc(), CONTROLLER, 120, 3, 1000)?, 15);
    Ok(())
}
