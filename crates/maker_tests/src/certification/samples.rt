//! The samples and the systems of the gallery, without their certificates: they come back with the budgets that were worked by
//! hand.

use crate::certification::rows::{certified_with, text_with, uncertified};
use std::process::Abort;
use std::test::Fail;
use test_sessions::{CONTROLLER, SOLO};

/// The text of `worker`: a frame is made, mapped, written and revoked, again and again.
const WORKER: &str =
    "memory 17 5\nuntyped u 0x10000 16\nobject code u frame\nobject vs u root\nobject pt u table\n\
    object code2 u frame\nobject vs2 u root\nobject pt2 u table\nobject worker u tcb\nobject receiver u tcb\n\
    object cs u cnode 4\nobject cs2 u cnode 4\nobject ep u endpoint\nobject pool u untyped 13\n\
    cap cs 1 pool 0 0\ncap cs 2 cs 0 28\ncap cs 3 vs 0 0\ncap cs 5 ep 1 5\ncap cs2 1 ep 2 0\ntable vs 0 pt\n\
    table vs2 0 pt2\nmap vs 0x1000 code 4\nmap vs2 0x1000 code2 4\n\
    thread worker cs 28 vs 100 auto 0 start 0x1000\nreg x17 1\nreg x18 4\nreg x19 1\nstart: jal x0 take\n\
    give: addi x17 x0 1\naddi x10 x0 2\nlui x11 0xC\naddi x11 x11 2\naddi x12 x0 1\naddi x13 x0 32\necall\n\
    take: addi x10 x0 1\nlui x11 1\naddi x11 x11 6\naddi x12 x0 6\naddi x13 x0 0\naddi x14 x0 0\naddi x15 x0 0\n\
    ecall\naddi x10 x0 4\nlui x11 0xD\naddi x11 x11 4\naddi x12 x0 3\naddi x13 x0 32\nlui x14 3\naddi x15 x0 3\n\
    ecall\nsw x19 0(x14)\naddi x17 x0 3\naddi x10 x0 5\necall\njal x0 give\nend\n\
    thread receiver cs2 28 vs2 100 auto 0 again 0x1000\nreg x17 5\nagain: addi x10 x0 1\necall\njal x0 again\n\
    end\n";

/// The text of `client_server`: Call and ReplyRecv.
const CLIENT_SERVER: &str =
    "memory 17 5\nuntyped u 0x10000 16\nobject code u frame\nobject vs u root\nobject pt u table\n\
    object code2 u frame\nobject vs2 u root\nobject pt2 u table\nobject client u tcb\nobject server u tcb\n\
    object cs u cnode 4\nobject cs2 u cnode 4\nobject ep u endpoint\ncap cs 1 ep 9 7\ncap cs2 1 ep 2 0\n\
    table vs 0 pt\ntable vs2 0 pt2\nmap vs 0x1000 code 4\nmap vs2 0x1000 code2 4\n\
    thread client cs 28 vs 100 auto 0 again 0x1000\nreg x5 0x40\nagain: addi x10 x0 1\naddi x11 x0 1\n\
    addi x12 x5 0\naddi x17 x0 1\necall\naddi x5 x12 0\naddi x10 x12 0\naddi x17 x0 9\necall\njal x0 again\n\
    end\nthread server cs2 28 vs2 101 auto 0 start 0x1000\nstart: addi x10 x0 1\naddi x17 x0 5\necall\n\
    answer: addi x12 x12 1\naddi x10 x0 1\naddi x11 x0 1\naddi x17 x0 2\necall\njal x0 answer\nend\n";

/// The text of `gateway`: two drivers, a filter and a printer.
const GATEWAY: &str =
    "memory 17 6\nuntyped u 0x10000 16\nobject field_code u frame\nobject field_space u root\n\
    object field_table u table\nobject office_code u frame\nobject office_space u root\n\
    object office_table u table\nobject filter_code u frame\nobject filter_space u root\n\
    object filter_table u table\nobject printer_code u frame\nobject printer_space u root\n\
    object printer_table u table\nobject field u tcb\nobject office u tcb\nobject filter u tcb\n\
    object printer u tcb\nobject field_slots u cnode 4\nobject office_slots u cnode 4\n\
    object filter_slots u cnode 4\nobject printer_slots u cnode 4\nobject inside u endpoint\n\
    object outside u endpoint\nobject field_bell u notification\nobject office_bell u notification\n\
    irq field_line 1 field_bell 1\nirq office_line 2 office_bell 1\ncap field_slots 1 field_bell 2 0\n\
    cap field_slots 2 field_line 0 0\ncap field_slots 3 inside 1 1\ncap office_slots 1 office_bell 2 0\n\
    cap office_slots 2 office_line 0 0\ncap office_slots 3 inside 9 2\ncap filter_slots 1 inside 2 0\n\
    cap filter_slots 2 outside 1 0\ncap printer_slots 1 outside 2 0\ntable field_space 0 field_table\n\
    table office_space 0 office_table\ntable filter_space 0 filter_table\ntable printer_space 0 printer_table\n\
    map field_space 0x1000 field_code 4\nmap office_space 0x1000 office_code 4\n\
    map filter_space 0x1000 filter_code 4\nmap printer_space 0x1000 printer_code 4\n\
    thread field field_slots 28 field_space 120 auto 0 wait 0x1000\nreg x22 0x61\nwait: addi x10 x0 1\n\
    addi x17 x0 5\necall\naddi x10 x0 2\nlui x11 0x12\naddi x17 x0 3\necall\naddi x10 x0 3\naddi x11 x0 1\n\
    addi x12 x22 0\necall\naddi x22 x22 15\nandi x22 x22 255\njal x0 wait\nend\n\
    thread office office_slots 28 office_space 120 auto 0 wait 0x1000\nwait: addi x10 x0 1\naddi x17 x0 5\n\
    ecall\naddi x10 x0 2\nlui x11 0x12\naddi x17 x0 3\necall\naddi x10 x0 3\naddi x11 x0 0\naddi x17 x0 1\n\
    ecall\naddi x10 x12 0\naddi x17 x0 9\necall\njal x0 wait\nend\n\
    thread filter filter_slots 28 filter_space 100 auto 0 receive 0x1000\nreg x22 0x3F\nreceive: addi x10 x0 1\n\
    addi x17 x0 5\necall\naddi x5 x0 1\nbeq x10 x5 of_field\naddi x5 x0 2\nbeq x10 x5 of_office\n\
    jal x0 receive\nof_field: addi x5 x0 0x80\nbgeu x12 x5 dropped\naddi x22 x12 0\naddi x10 x0 2\n\
    addi x11 x0 1\naddi x17 x0 3\necall\ndropped: jal x0 receive\nof_office: addi x12 x22 0\naddi x11 x0 1\n\
    addi x17 x0 6\necall\njal x0 receive\nend\n\
    thread printer printer_slots 28 printer_space 90 auto 0 receive 0x1000\nreceive: addi x10 x0 1\n\
    addi x17 x0 5\necall\naddi x10 x12 0\naddi x17 x0 9\necall\njal x0 receive\nend\n";

/// The text of `key_store`: pages that are made, wiped and revoked.
const KEY_STORE: &str =
    "memory 17 6\nuntyped u 0x10000 16\nobject pool u untyped 12\nobject vault_code u frame\n\
    object vault_space u root\nobject vault_table u table\nobject user_code u frame\nobject user_space u root\n\
    object user_table u table\nobject admin_code u frame\nobject admin_space u root\n\
    object admin_table u table\nobject vault u tcb\nobject user u tcb\nobject admin u tcb\n\
    object vault_slots u cnode 4\nobject user_slots u cnode 4\nobject admin_slots u cnode 4\n\
    object door u endpoint\nobject user_bell u notification\nobject admin_bell u notification\n\
    irq user_line 1 user_bell 1\nirq admin_line 2 admin_bell 1\ncap vault_slots 1 pool 0 0\n\
    cap vault_slots 2 vault_slots 0 28\ncap vault_slots 3 vault_space 0 0\ncap vault_slots 5 door 2 0\n\
    cap user_slots 1 user_bell 2 0\ncap user_slots 2 user_line 0 0\ncap user_slots 3 door 9 1\n\
    cap admin_slots 1 admin_bell 2 0\ncap admin_slots 2 admin_line 0 0\ncap admin_slots 3 door 9 2\n\
    table vault_space 0 vault_table\ntable user_space 0 user_table\ntable admin_space 0 admin_table\n\
    map vault_space 0x1000 vault_code 4\nmap user_space 0x1000 user_code 4\n\
    map admin_space 0x1000 admin_code 4\nthread vault vault_slots 28 vault_space 120 auto 0 take 0x1000\n\
    reg x22 0x5A\ntake: addi x10 x0 1\nlui x11 1\naddi x11 x11 6\naddi x12 x0 6\naddi x13 x0 0\naddi x14 x0 0\n\
    addi x15 x0 0\naddi x18 x0 4\naddi x19 x0 1\naddi x17 x0 3\necall\naddi x10 x0 4\nlui x11 0xD\n\
    addi x11 x11 4\naddi x12 x0 3\naddi x13 x0 32\nlui x14 3\naddi x15 x0 3\necall\nlui x6 3\nsw x22 0(x6)\n\
    serve: addi x10 x0 5\naddi x17 x0 5\necall\naddi x5 x0 2\nbeq x10 x5 change\nlui x6 3\nlw x7 0(x6)\n\
    xor x12 x12 x7\naddi x11 x0 1\naddi x17 x0 6\necall\njal x0 serve\nchange: addi x22 x12 0\naddi x5 x0 1024\n\
    lui x6 3\nwipe: slli x7 x5 2\nadd x7 x7 x6\nsw x0 -4(x7)\naddi x5 x5 -1\nbne x5 x0 wipe\naddi x10 x0 4\n\
    lui x11 0xE\naddi x17 x0 3\necall\naddi x10 x0 2\nlui x11 0xC\naddi x11 x11 2\naddi x12 x0 1\n\
    addi x13 x0 32\necall\naddi x11 x0 0\naddi x17 x0 6\necall\njal x0 take\nend\n\
    thread user user_slots 28 user_space 100 auto 0 wait 0x1000\nreg x22 0x1B\nwait: addi x10 x0 1\n\
    addi x17 x0 5\necall\naddi x10 x0 2\nlui x11 0x12\naddi x17 x0 3\necall\naddi x12 x22 0\naddi x22 x22 1\n\
    addi x10 x0 3\naddi x11 x0 1\naddi x17 x0 1\necall\naddi x10 x12 0\naddi x17 x0 9\necall\njal x0 wait\nend\n\
    thread admin admin_slots 28 admin_space 110 auto 0 wait 0x1000\nreg x22 0x2A\nwait: addi x10 x0 1\n\
    addi x17 x0 5\necall\naddi x10 x0 2\nlui x11 0x12\naddi x17 x0 3\necall\naddi x12 x22 0\naddi x22 x22 1\n\
    addi x10 x0 3\naddi x11 x0 1\naddi x17 x0 1\necall\naddi x10 x0 0x57\naddi x17 x0 9\necall\njal x0 wait\n\
    end\n";

#[test]
fn a_thread_that_waits_is_certified(rt: HostRuntime) -> Result<(), Fail> {
    let bell = text_with(&rt, "")?.replace(rt.alloc(), " start ", " wait ")?;
    certified_with(&rt, bell.as_str(), "main budget 4\n")
}

#[test]
fn a_thread_that_counts_down_is_certified(rt: HostRuntime) -> Result<(), Fail> {
    let solo = uncertified(rt.alloc(), SOLO)?;
    certified_with(&rt, solo.as_str(), "main budget 24\n")
}

#[test]
fn a_pool_that_is_used_again_and_again_is_certified(rt: HostRuntime) -> Result<(), Fail> {
    certified_with(&rt, WORKER, "worker budget 28\nreceiver budget 3\n")
}

#[test]
fn a_client_and_a_server_is_certified(rt: HostRuntime) -> Result<(), Fail> {
    certified_with(&rt, CLIENT_SERVER, "client budget 10\nserver budget 6\n")
}

#[test]
fn a_controller_is_certified(rt: HostRuntime) -> Result<(), Fail> {
    let controller = uncertified(rt.alloc(), CONTROLLER)?;
    certified_with(
        &rt,
        controller.as_str(),
        "control budget 27\nsensor budget 12\nwatchdog budget 15\n",
    )
}

#[test]
fn a_gateway_is_certified(rt: HostRuntime) -> Result<(), Fail> {
    certified_with(
        &rt,
        GATEWAY,
        "field budget 8\noffice budget 8\nfilter budget 12\nprinter budget 7\n",
    )
}

#[test]
fn a_key_store_is_certified(rt: HostRuntime) -> Result<(), Fail> {
    certified_with(
        &rt,
        KEY_STORE,
        "vault budget 5163\nuser budget 10\nadmin budget 10\n",
    )
}
