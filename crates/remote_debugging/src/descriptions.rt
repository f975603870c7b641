//! What is said of the machine: its registers, in XML, as the debugger asks for it.

use std::alloc::{AllocError, Global};

/// The names of the registers x0 to x31 in calls.
const NAMES: [&str; 32] = [
    "zero", "ra", "sp", "gp", "tp", "t0", "t1", "t2", "fp", "s1", "a0", "a1", "a2", "a3", "a4",
    "a5", "a6", "a7", "s2", "s3", "s4", "s5", "s6", "s7", "s8", "s9", "s10", "s11", "t3", "t4",
    "t5", "t6",
];

/// The description of an RV32I with its registers.
///
/// GDB manual, "Target Descriptions", "RISC-V Features".
pub(crate) fn target_description(alloc: Global) -> Result<String, AllocError> {
    let mut text = String::from_str(
        alloc,
        "<?xml version=\"1.0\"?><!DOCTYPE target SYSTEM \"gdb-target.dtd\"><target version=\"1.0\"><architecture>riscv:rv32</architecture>\
         <feature name=\"org.gnu.gdb.riscv.cpu\">",
    )?;
    for name in NAMES.iter() {
        let kind = match *name {
            "ra" => "code_ptr",
            "sp" | "gp" | "tp" | "fp" => "data_ptr",
            _ => "int",
        };
        let name = *name;
        write!(
            &mut text,
            "<reg name=\"{name}\" bitsize=\"32\" type=\"{kind}\"/>"
        )?;
    }
    text.push_str("<reg name=\"pc\" bitsize=\"32\" type=\"code_ptr\"/></feature></target>")?;
    Ok(text)
}

/// Appends so many bytes of a text from a place on: `m` before them, or `l` where they are the last.
pub(crate) fn push_piece(
    text: &[u8],
    from: u32,
    length: u32,
    to: &mut Vec<u8>,
) -> Result<(), AllocError> {
    let rest = text.get(from as usize..).unwrap_or(&[]);
    match rest.get(..length as usize) {
        Some(piece) if piece.len() < rest.len() => {
            to.push(b'm')?;
            to.extend_from_slice(piece)
        }
        _ => {
            to.push(b'l')?;
            to.extend_from_slice(rest)
        }
    }
}
