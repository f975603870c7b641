//! A program of each instruction with ends of its operands, and of each register.

use crate::assembling::images::bytes_of;
use crate::assembling::instruction_table;
use std::alloc::Global;
use std::test::Fail;
use test_sessions::{SOLO, lines_before, put_line};

/// The words that another assembler (clang 14, `-march=rv32i -mno-relax`) makes of the same program, and its lines.
const ROWS: &str = "
    0x00A00293 start: addi x5 x0 10
    0x000F8033 add x0 x31 x0
    0x007F00B3 add x1 x30 x7
    0x00EE8133 add x2 x29 x14
    0x015E01B3 add x3 x28 x21
    0x01CD8233 add x4 x27 x28
    0x003D02B3 add x5 x26 x3
    0x00AC8333 add x6 x25 x10
    0x011C03B3 add x7 x24 x17
    0x018B8433 add x8 x23 x24
    0x01FB04B3 add x9 x22 x31
    0x006A8533 add x10 x21 x6
    0x00DA05B3 add x11 x20 x13
    0x01498633 add x12 x19 x20
    0x01B906B3 add x13 x18 x27
    0x00288733 add x14 x17 x2
    0x009807B3 add x15 x16 x9
    0x01078833 add x16 x15 x16
    0x017708B3 add x17 x14 x23
    0x01E68933 add x18 x13 x30
    0x005609B3 add x19 x12 x5
    0x00C58A33 add x20 x11 x12
    0x01350AB3 add x21 x10 x19
    0x01A48B33 add x22 x9 x26
    0x00140BB3 add x23 x8 x1
    0x00838C33 add x24 x7 x8
    0x00F30CB3 add x25 x6 x15
    0x01628D33 add x26 x5 x22
    0x01D20DB3 add x27 x4 x29
    0x00418E33 add x28 x3 x4
    0x00B10EB3 add x29 x2 x11
    0x01208F33 add x30 x1 x18
    0x01900FB3 add x31 x0 x25
    0x000F8063 before0: beq x31 x0 before0
    0xFE0F9EE3 bne x31 x0 before0
    0xFE0FCCE3 blt x31 x0 before0
    0xFE0FDAE3 bge x31 x0 before0
    0xFE0FE8E3 bltu x31 x0 before0
    0xFE0FF6E3 bgeu x31 x0 before0
    0xFE9FF06F jal x0 before0
    0x000F8E63 beq x31 x0 behind0
    0x000F9C63 bne x31 x0 behind0
    0x000FCA63 blt x31 x0 behind0
    0x000FD863 bge x31 x0 behind0
    0x000FE663 bltu x31 x0 behind0
    0x000FF463 bgeu x31 x0 behind0
    0x0040006F jal x0 behind0
    0x400F8033 behind0: sub x0 x31 x0
    0x000F9033 sll x0 x31 x0
    0x000FA033 slt x0 x31 x0
    0x000FB033 sltu x0 x31 x0
    0x000FC033 xor x0 x31 x0
    0x000FD033 srl x0 x31 x0
    0x400FD033 sra x0 x31 x0
    0x000FE033 or x0 x31 x0
    0x000FF033 and x0 x31 x0
    0x800F8013 addi x0 x31 -2048
    0x800FA013 slti x0 x31 -2048
    0x800FB013 sltiu x0 x31 -2048
    0x800FC013 xori x0 x31 -2048
    0x800FE013 ori x0 x31 -2048
    0x800FF013 andi x0 x31 -2048
    0x000F9013 slli x0 x31 0
    0x000FD013 srli x0 x31 0
    0x400FD013 srai x0 x31 0
    0x800F8003 lb x0 -2048(x31)
    0x800F9003 lh x0 -2048(x31)
    0x800FA003 lw x0 -2048(x31)
    0x800FC003 lbu x0 -2048(x31)
    0x800FD003 lhu x0 -2048(x31)
    0x800F8023 sb x0 -2048(x31)
    0x800F9023 sh x0 -2048(x31)
    0x800FA023 sw x0 -2048(x31)
    0x00000037 lui x0 0
    0x00000017 auipc x0 0
    0x800F8067 jalr x0 -2048(x31)
    0x00000073 ecall
    0x00100073 ebreak
    0x0FF0000F fence
    0x007F0063 before1: beq\tx30\tx7\tbefore1
    0xFE7F1EE3 bne\tx30\tx7\tbefore1
    0xFE7F4CE3 blt\tx30\tx7\tbefore1
    0xFE7F5AE3 bge\tx30\tx7\tbefore1
    0xFE7F68E3 bltu\tx30\tx7\tbefore1
    0xFE7F76E3 bgeu\tx30\tx7\tbefore1
    0xFE9FF0EF jal\tx1\tbefore1
    0x007F0E63 beq\tx30\tx7\tbehind1
    0x007F1C63 bne\tx30\tx7\tbehind1
    0x007F4A63 blt\tx30\tx7\tbehind1
    0x007F5863 bge\tx30\tx7\tbehind1
    0x007F6663 bltu\tx30\tx7\tbehind1
    0x007F7463 bgeu\tx30\tx7\tbehind1
    0x004000EF jal\tx1\tbehind1
    0x407F00B3 behind1: sub\tx1\tx30\tx7
    0x007F10B3 sll\tx1\tx30\tx7
    0x007F20B3 slt\tx1\tx30\tx7
    0x007F30B3 sltu\tx1\tx30\tx7
    0x007F40B3 xor\tx1\tx30\tx7
    0x007F50B3 srl\tx1\tx30\tx7
    0x407F50B3 sra\tx1\tx30\tx7
    0x007F60B3 or\tx1\tx30\tx7
    0x007F70B3 and\tx1\tx30\tx7
    0x7FFF0093 addi\tx1\tx30\t2047
    0x7FFF2093 slti\tx1\tx30\t2047
    0x7FFF3093 sltiu\tx1\tx30\t2047
    0x7FFF4093 xori\tx1\tx30\t2047
    0x7FFF6093 ori\tx1\tx30\t2047
    0x7FFF7093 andi\tx1\tx30\t2047
    0x01FF1093 slli\tx1\tx30\t31
    0x01FF5093 srli\tx1\tx30\t31
    0x41FF5093 srai\tx1\tx30\t31
    0x7FFF0083 lb\tx1\t2047(x30)
    0x7FFF1083 lh\tx1\t2047(x30)
    0x7FFF2083 lw\tx1\t2047(x30)
    0x7FFF4083 lbu\tx1\t2047(x30)
    0x7FFF5083 lhu\tx1\t2047(x30)
    0x7E7F0FA3 sb\tx7\t2047(x30)
    0x7E7F1FA3 sh\tx7\t2047(x30)
    0x7E7F2FA3 sw\tx7\t2047(x30)
    0xFFFFF0B7 lui\tx1\t1048575
    0xFFFFF097 auipc\tx1\t1048575
    0x7FFF00E7 jalr\tx1\t2047(x30)
    0x01770063 before2: beq,x14,x23,before2
    0xFF771EE3 bne,x14,x23,before2
    0xFF774CE3 blt,x14,x23,before2
    0xFF775AE3 bge,x14,x23,before2
    0xFF7768E3 bltu,x14,x23,before2
    0xFF7776E3 bgeu,x14,x23,before2
    0xFE9FF8EF jal,x17,before2
    0x01770E63 beq,x14,x23,behind2
    0x01771C63 bne,x14,x23,behind2
    0x01774A63 blt,x14,x23,behind2
    0x01775863 bge,x14,x23,behind2
    0x01776663 bltu,x14,x23,behind2
    0x01777463 bgeu,x14,x23,behind2
    0x004008EF jal,x17,behind2
    0x417708B3 behind2: sub,x17,x14,x23
    0x017718B3 sll,x17,x14,x23
    0x017728B3 slt,x17,x14,x23
    0x017738B3 sltu,x17,x14,x23
    0x017748B3 xor,x17,x14,x23
    0x017758B3 srl,x17,x14,x23
    0x417758B3 sra,x17,x14,x23
    0x017768B3 or,x17,x14,x23
    0x017778B3 and,x17,x14,x23
    0x00070893 addi,x17,x14,0
    0x00072893 slti,x17,x14,0
    0x00073893 sltiu,x17,x14,0
    0x00074893 xori,x17,x14,0
    0x00076893 ori,x17,x14,0
    0x00077893 andi,x17,x14,0
    0x00171893 slli,x17,x14,1
    0x00175893 srli,x17,x14,1
    0x40175893 srai,x17,x14,1
    0x00070883 lb,x17,0(x14)
    0x00071883 lh,x17,0(x14)
    0x00072883 lw,x17,0(x14)
    0x00074883 lbu,x17,0(x14)
    0x00075883 lhu,x17,0(x14)
    0x01770023 sb,x23,0(x14)
    0x01771023 sh,x23,0(x14)
    0x01772023 sw,x23,0(x14)
    0x000018B7 lui,x17,1
    0x00001897 auipc,x17,1
    0x000708E7 jalr,x17,0(x14)
    0x01228063 before3: beq , x5 , x18 , before3
    0xFF229EE3 bne , x5 , x18 , before3
    0xFF22CCE3 blt , x5 , x18 , before3
    0xFF22DAE3 bge , x5 , x18 , before3
    0xFF22E8E3 bltu , x5 , x18 , before3
    0xFF22F6E3 bgeu , x5 , x18 , before3
    0xFE9FFF6F jal , x30 , before3
    0x01228E63 beq , x5 , x18 , behind3
    0x01229C63 bne , x5 , x18 , behind3
    0x0122CA63 blt , x5 , x18 , behind3
    0x0122D863 bge , x5 , x18 , behind3
    0x0122E663 bltu , x5 , x18 , behind3
    0x0122F463 bgeu , x5 , x18 , behind3
    0x00400F6F jal , x30 , behind3
    0x41228F33 behind3: sub , x30 , x5 , x18
    0x01229F33 sll , x30 , x5 , x18
    0x0122AF33 slt , x30 , x5 , x18
    0x0122BF33 sltu , x30 , x5 , x18
    0x0122CF33 xor , x30 , x5 , x18
    0x0122DF33 srl , x30 , x5 , x18
    0x4122DF33 sra , x30 , x5 , x18
    0x0122EF33 or , x30 , x5 , x18
    0x0122FF33 and , x30 , x5 , x18
    0xFFF28F13 addi , x30 , x5 , -1
    0xFFF2AF13 slti , x30 , x5 , -1
    0xFFF2BF13 sltiu , x30 , x5 , -1
    0xFFF2CF13 xori , x30 , x5 , -1
    0xFFF2EF13 ori , x30 , x5 , -1
    0xFFF2FF13 andi , x30 , x5 , -1
    0x01129F13 slli , x30 , x5 , 17
    0x0112DF13 srli , x30 , x5 , 17
    0x4112DF13 srai , x30 , x5 , 17
    0xFFF28F03 lb , x30 , -1(x5)
    0xFFF29F03 lh , x30 , -1(x5)
    0xFFF2AF03 lw , x30 , -1(x5)
    0xFFF2CF03 lbu , x30 , -1(x5)
    0xFFF2DF03 lhu , x30 , -1(x5)
    0xFF228FA3 sb , x18 , -1(x5)
    0xFF229FA3 sh , x18 , -1(x5)
    0xFF22AFA3 sw , x18 , -1(x5)
    0x80000F37 lui , x30 , 524288
    0x80000F17 auipc , x30 , 524288
    0xFFF28F67 jalr , x30 , -1(x5)
    0xFF950493 addi x9 x10 -07
    0x01FADA13 srli x20 x21 0x1f
    0xFFFFF9B7 lui x19 0xFfFfF
    0x7FFF5183 lhu x3 0x7FF(x30)
    0x01F120B3 slt x1 x2 x31 ,
    0x01F150B3 srl x1 x2 x31# a comment
    0x01F160B3 or: or x1 x2 x31 # the label has the name of an instruction
    0xFEC58EE3   beq,x11,x12,or
    0xFE029EE3 word 0xFE029EE3
";

/// Whether a text of these lines, each after its word, is an image that ends with these words, and there are as many.
fn has_words(alloc: Global, rows: &str, count: usize) -> Result<bool, Fail> {
    let mut text = lines_before(alloc, SOLO, 17)?;
    let mut words = Vec::new(alloc);
    for row in rows.trim().lines() {
        let (word, line) = row.trim_start().split_once(' ').ok_or(row)?;
        let digits = word.strip_prefix("0x").ok_or(row)?;
        words.extend_from_slice(&u32::from_str_radix(digits, 16)?.to_le_bytes())?;
        put_line(&mut text, line)?;
    }
    put_line(&mut text, "end")?;
    Ok(words.len() / 4 == count && bytes_of(alloc, text.as_str())?.ends_with(words.as_slice()))
}

#[test]
fn instructions_have_the_words_of_another_assembler(rt: HostRuntime) -> Result<(), Fail> {
    assert!(rt; has_words(rt.alloc(), ROWS, 217)?);
    Ok(())
}

#[test]
fn many_operands_have_the_words_of_another_assembler(rt: HostRuntime) -> Result<(), Fail> {
    assert!(rt; has_words(rt.alloc(), instruction_table::ROWS, 37 * 32 + 3)?);
    Ok(())
}
