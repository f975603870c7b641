//! What is wrong in a part's program is reported by the line of the description, too.

use described_systems::Joined;
use expansion::expand;
use explaining::{Explanation, Text, explain};
use progress::Quiet;
use std::test::Fail;

/// The target of the jump on line 8 is no label.
const DESCRIPTION: &str = "bell tick
part a 1
waits tick
code
again: addi x10 x0 tick
addi x17 x0 5
ecall
jal x0 agian
end
";

#[test]
fn a_mistake_in_a_program_is_told_by_both_lines(rt: HostRuntime) -> Result<(), Fail> {
    let expansion = expand(rt.alloc(), &Joined::of(rt.alloc(), "d.sys", DESCRIPTION)?)
        .ok()
        .ok_or("it is not expanded")?;
    let text = Text {
        file: "text",
        content: expansion.text.as_str(),
    };
    let told = match explain(rt.alloc(), &text, &mut Quiet)
        .ok()
        .ok_or("nothing is said")?
    {
        Explanation::Refused(told) => told,
        Explanation::Accepted => String::new(rt.alloc()),
    };
    assert!(&rt; told.as_str().starts_with("d.sys:8: text:"), "{told}");
    Ok(())
}
