//! Reports on systems, as pages and as data.

use crate::commands::{answer_to, answers};
use std::test::Fail;
use test_sessions::put_file;

/// A part waits for a bell, again and again.
const SYSTEM: &str = "bell r
part waiter 1
waits r
code
again: addi x10 x0 r
addi x17 x0 5
ecall
jal x0 again
end
";

#[test]
fn an_accepted_system_gets_a_page(rt: HostRuntime) -> Result<(), Fail> {
    put_file(&rt, "signed.sys", SYSTEM.as_bytes())?;
    put_file(&rt, "signed.events", b"step 3\n")?;
    let page = answer_to(&rt, "report @signed.sys - @signed.events")?;
    for said in [
        "<p class=\"verdict\">Accepted</p>",
        "than its budget: waiter 4.",
        ">waiter</text>",
        "signed.events: 3 events were run.",
        "</html>\nstatus 0\n",
    ] {
        assert!(&rt; page.contains(said), "{said}");
    }
    let data = answer_to(&rt, "report @signed.sys - --json --rate 7:1:1000")?;
    for said in [
        "\"verdict\": \"accepted\"",
        "\"period\": 1000",
        "status 0\n",
    ] {
        assert!(&rt; data.contains(said), "{said}");
    }
    Ok(())
}

#[test]
fn a_refused_system_gets_its_explanation(rt: HostRuntime) -> Result<(), Fail> {
    put_file(
        &rt,
        "unsigned.sys",
        b"part a 1\ncode\nagain: jal x0 again\nend\n",
    )?;
    let page = answer_to(&rt, "report @unsigned.sys -")?;
    assert!(&rt; page.contains("This system is refused."), "{page}");
    assert!(&rt; page.contains("</html>\nstatus 1\n"), "{page}");
    assert!(&rt; !page.contains("Accepted"), "{page}");
    answers(
        &rt,
        "report @unsigned.sys - --rate 7",
        "status 2\nerror: `--rate 7` is not of the form `--rate LINE:BURST:PERIOD`\n",
    )
}

#[test]
fn reports_are_compared(rt: HostRuntime) -> Result<(), Fail> {
    put_file(
        &rt,
        "before.json",
        b"{\"parts\": [{\"name\": \"a\", \"budget\": 4}, {\"name\": \"b\", \"budget\": 5}]}",
    )?;
    put_file(
        &rt,
        "after.json",
        b"{\"parts\": [{\"name\": \"c\", \"budget\": 5}, {\"name\": \"a\", \"budget\": 6}], \"format\": 1}",
    )?;
    answers(&rt, "diff @before.json @before.json", "status 0\n")?;
    answers(
        &rt,
        "diff @before.json @after.json",
        "parts[a].budget: 4 -> 6\n- parts[b].budget: 5\n- parts[b].name: b\n+ format: 1\n+ parts[c].budget: 5\n+ parts[c].name: c\nstatus 1\n",
    )?;
    put_file(&rt, "none.json", b"{\n]")?;
    let wrong = answer_to(&rt, "diff @before.json @none.json")?;
    assert!(&rt;
        wrong.ends_with("none.json:2: Malformed: not read\nstatus 1\n"),
        "{wrong}"
    );
    Ok(())
}
