//! Systems by their descriptions: they come out accepted, with the budgets of texts that were made by hand.

use described_systems::Joined;
use expansion::expand;
use progress::Quiet;
use std::process::Abort;
use std::test::Fail;
use tool::made;

/// A timer, a page of a sensor, an output byte and a watchdog.
const CONTROLLER: &str = "page sensor 55 20
bell tick
bell dog
part ctl 100
waits tick line 7 every 200
rings dog
sees sensor 0x2000
code
lui x6 sensor
wait: addi x10 x0 tick
addi x17 x0 5
ecall
lw x5 0(x6)
lw x7 4(x6)
addi x10 x0 72
bltu x7 x5 put
addi x10 x0 76
put: addi x17 x0 9
ecall
addi x17 x0 3
addi x10 x0 dog
ecall
addi x17 x0 1
addi x10 x0 tick.line7
lui x11 18
ecall
jal x0 wait
end
part dogt 90
waits dog
code
again: addi x10 x0 dog
addi x17 x0 5
ecall
jal x0 again
end
";

/// Two drivers, a filter with badges and replies, and a page that all three share.
const GATEWAY: &str = "page shared
door ep
bell rxa
bell rxb
part filter 110
serves ep
writes shared 0x2000
code
lui x6 shared
addi x10 x0 ep
addi x17 x0 5
ecall
serve: addi x7 x0 1
andi x5 x12 0xff
slli x5 x5 2
add x5 x5 x6
bne x10 x7 other
sw x12 0(x5)
andi x12 x12 1
xori x12 x12 1
jal x0 reply
other: lw x12 0(x5)
reply: addi x10 x0 ep
addi x11 x0 1
addi x17 x0 2
ecall
jal x0 serve
end
part drva 100
waits rxa line 4 every 400
calls ep
writes shared 0x2000
code
start: addi x10 x0 rxa
addi x17 x0 5
ecall
addi x8 x8 1
addi x12 x8 0
addi x10 x0 ep
addi x11 x0 1
addi x17 x0 1
ecall
addi x17 x0 1
addi x10 x0 rxa.line4
lui x11 18
ecall
jal x0 start
end
part drvb 100
waits rxb line 5 every 400
calls ep
sees shared 0x2000
code
start: addi x10 x0 rxb
addi x17 x0 5
ecall
addi x12 x0 1
addi x10 x0 ep
addi x11 x0 1
addi x17 x0 1
ecall
addi x10 x12 48
addi x17 x0 9
ecall
addi x17 x0 1
addi x10 x0 rxb.line5
lui x11 18
ecall
jal x0 start
end
";

/// A vault that keeps a key in a page of its own, a user and an admin.
const KEY_STORE: &str = "door requests
bell user_bell
bell admin_bell
part vault 120
pool 12 1 0x3000
serves requests
reg x22 0x5A
code
take: addi x10 x0 pool
lui x11 1
addi x11 x11 6
addi x12 x0 6
addi x13 x0 0
addi x14 x0 0
addi x15 x0 0
addi x18 x0 pool.slot1
addi x19 x0 1
addi x17 x0 3
ecall
addi x10 x0 pool.slot1
lui x11 0xD
addi x11 x11 4
addi x12 x0 space
addi x13 x0 32
lui x14 3
addi x15 x0 3
ecall
lui x6 3
sw x22 0(x6)
serve: addi x10 x0 requests
addi x17 x0 5
ecall
addi x5 x0 2
beq x10 x5 change
lui x6 3
lw x7 0(x6)
xor x12 x12 x7
addi x11 x0 1
addi x17 x0 6
ecall
jal x0 serve
change: addi x22 x12 0
addi x5 x0 1024
lui x6 3
wipe: slli x7 x5 2
add x7 x7 x6
sw x0 -4(x7)
addi x5 x5 -1
bne x5 x0 wipe
addi x10 x0 pool.slot1
lui x11 0xE
addi x17 x0 3
ecall
addi x10 x0 cnode
lui x11 0xC
addi x11 x11 2
addi x12 x0 pool
addi x13 x0 32
ecall
addi x11 x0 0
addi x17 x0 6
ecall
jal x0 take
end
part user 100
waits user_bell line 1
calls requests
reg x22 0x1B
code
wait: addi x10 x0 user_bell
addi x17 x0 5
ecall
addi x10 x0 user_bell.line1
lui x11 0x12
addi x17 x0 3
ecall
addi x12 x22 0
addi x22 x22 1
addi x10 x0 requests
addi x11 x0 1
addi x17 x0 1
ecall
addi x10 x12 0
addi x17 x0 9
ecall
jal x0 wait
end
part admin 110
waits admin_bell line 2
calls requests
reg x22 0x2A
code
wait: addi x10 x0 admin_bell
addi x17 x0 5
ecall
addi x10 x0 admin_bell.line2
lui x11 0x12
addi x17 x0 3
ecall
addi x12 x22 0
addi x22 x22 1
addi x10 x0 requests
addi x11 x0 1
addi x17 x0 1
ecall
addi x10 x0 0x57
addi x17 x0 9
ecall
jal x0 wait
end
";

/// Asserts that a description comes out accepted, with these budgets.
fn has_budgets(
    rt: &(impl AllocGlobal + Abort),
    description: &str,
    budgets: &str,
) -> Result<(), Fail> {
    let expansion = expand(rt.alloc(), &Joined::of(rt.alloc(), "d", description)?)
        .ok()
        .ok_or("it is not expanded")?;
    let made = made(rt.alloc(), expansion.text.as_str(), &mut Quiet)
        .ok()
        .ok_or("it is not accepted")?;
    assert_eq!(rt; made.budgets.as_str(), budgets);
    Ok(())
}

#[test]
fn the_controller_is_accepted(rt: HostRuntime) -> Result<(), Fail> {
    has_budgets(&rt, CONTROLLER, "ctl budget 18\ndogt budget 4\n")
}

#[test]
fn the_gateway_is_accepted(rt: HostRuntime) -> Result<(), Fail> {
    has_budgets(
        &rt,
        GATEWAY,
        "filter budget 14\ndrva budget 8\ndrvb budget 11\n",
    )
}

#[test]
fn the_key_store_is_accepted(rt: HostRuntime) -> Result<(), Fail> {
    has_budgets(
        &rt,
        KEY_STORE,
        "vault budget 5163\nuser budget 10\nadmin budget 10\n",
    )
}
