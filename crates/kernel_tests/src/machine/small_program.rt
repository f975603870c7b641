//! Words that other assemblers give.

use crate::machine::rows::row;
use rv32_isa::decode;
use std::test::Fail;

/// The word, and its instruction as `Debug` prints it.
const ROWS: &str = "\
0x00100513 | Some(Immediate { op: Addi, rd: Register(10), rs1: Register(0), immediate: 1 })
0x00500893 | Some(Immediate { op: Addi, rd: Register(17), rs1: Register(0), immediate: 5 })
0x00000073 | Some(Ecall)
0xFF5FF06F | Some(Jal { rd: Register(0), offset: -12 })
0xFFF00093 | Some(Immediate { op: Addi, rd: Register(1), rs1: Register(0), immediate: -1 })";

#[test]
fn words_of_a_small_program(rt: HostRuntime) -> Result<(), Fail> {
    for line in ROWS.lines() {
        let ([word], want) = row::<1>(line)?;
        let printed = format!(in rt.alloc(); "{:?}", decode(word))?;
        assert_eq!(rt; printed.as_str(), want);
    }
    Ok(())
}
