//! The forms of lines.

/// What comes after the first word of a line, and how large its numbers may be.
#[derive(Clone, Copy, Drop)]
pub(crate) struct Form {
    pub(crate) operands: &'static str,
    pub(crate) ranges: &'static str,
}

/// The words with which lines begin.
pub(crate) const WORDS: [&str; 57] = [
    "memory", "untyped", "object", "irq", "cap", "table", "map", "data", "promise", "thread",
    "buffer", "reg", "measure", "range", "slot", "word", "end", "lui", "auipc", "jal", "jalr",
    "beq", "bne", "blt", "bge", "bltu", "bgeu", "lb", "lh", "lw", "lbu", "lhu", "sb", "sh", "sw",
    "addi", "slti", "sltiu", "xori", "ori", "andi", "slli", "srli", "srai", "add", "sub", "sll",
    "slt", "sltu", "xor", "srl", "sra", "or", "and", "fence", "ecall", "ebreak",
];

const IMMEDIATE: Form = Form {
    operands: "xD xS NUMBER",
    ranges: "NUMBER is -2048 to 2047",
};

const SHIFT: Form = Form {
    operands: "xD xS NUMBER",
    ranges: "NUMBER is 0 to 31",
};

const REGISTERS: Form = Form {
    operands: "xD xS xT",
    ranges: "registers are x0 to x31",
};

const LOAD: Form = Form {
    operands: "xD OFFSET(xS)",
    ranges: "OFFSET is -2048 to 2047, and always written",
};

const STORE: Form = Form {
    operands: "xT OFFSET(xS)",
    ranges: "xT is stored; OFFSET is -2048 to 2047, and always written",
};

const BRANCH: Form = Form {
    operands: "xS xT LABEL",
    ranges: "the label's line is at most 4096 bytes away",
};

const UPPER: Form = Form {
    operands: "xD NUMBER",
    ranges: "NUMBER is 0 to 0xfffff",
};

const BARE: Form = Form {
    operands: "",
    ranges: "nothing comes after it",
};

const JUMP: Form = Form {
    operands: "xD LABEL",
    ranges: "the label's line is less than 0x100000 bytes away",
};

/// Instructions of one form, by their names.
struct Kind {
    names: &'static str,
    form: Form,
}

/// The forms of instructions.
const INSTRUCTIONS: [Kind; 9] = [
    Kind {
        names: "addi slti sltiu xori ori andi",
        form: IMMEDIATE,
    },
    Kind {
        names: "slli srli srai",
        form: SHIFT,
    },
    Kind {
        names: "add sub sll slt sltu xor srl sra or and",
        form: REGISTERS,
    },
    Kind {
        names: "lb lh lw lbu lhu jalr",
        form: LOAD,
    },
    Kind {
        names: "sb sh sw",
        form: STORE,
    },
    Kind {
        names: "beq bne blt bge bltu bgeu",
        form: BRANCH,
    },
    Kind {
        names: "lui auipc",
        form: UPPER,
    },
    Kind {
        names: "jal",
        form: JUMP,
    },
    Kind {
        names: "ecall ebreak fence",
        form: BARE,
    },
];

/// Whether a word is in a list of words.
fn is_in(names: &str, word: &str) -> bool {
    for name in names.split_whitespace() {
        if name == word {
            return true;
        }
    }
    false
}

/// The form of an instruction.
fn instruction_form(word: &str) -> Option<Form> {
    for kind in &INSTRUCTIONS {
        if is_in(kind.names, word) {
            return Some(kind.form);
        }
    }
    None
}

/// The form of a declaration.
fn declaration_form(word: &str) -> Option<Form> {
    let (operands, ranges) = match word {
        "memory" => (
            "BITS RADIX",
            "BITS is 16 to 24, RADIX 1 to 14 and at most BITS - 5",
        ),
        "untyped" => ("NAME OFFSET BITS", "BITS is 4 to 24; at most 64 such lines"),
        "object" => (
            "NAME UNTYPED KIND [SIZE]",
            "KIND is untyped (SIZE 4 to 24), cnode (SIZE 1 to 14), tcb, endpoint, notification, frame (SIZE 1: a device page), table or root; \
             the untyped memories come in their order",
        ),
        "irq" => (
            "NAME LINE NOTIFICATION BADGE",
            "LINE is 0 to 63, each once; BADGE is below 0x10000000",
        ),
        "cap" => (
            "CNODE INDEX SOURCE RIGHTS DATA",
            "each slot of a CNode is listed once; RIGHTS: write 1, read 2, grant-reply 8; DATA: a badge or a guard word",
        ),
        "table" => ("ROOT ADDRESS TABLE", "each address of a root table once"),
        "map" => (
            "ROOT ADDRESS FRAME RIGHTS",
            "each address of a root table once; RIGHTS: write 1, read 2, execute 4, together at most 7",
        ),
        "data" => (
            "FRAME WORD ..",
            "1 to 1024 words of 32 bits; each frame once",
        ),
        "promise" => (
            "ENDPOINT LOW HIGH [LOW HIGH] ..",
            "the badges first, below 0x10000000, then at most 8 words; each LOW is at most its HIGH; each endpoint once",
        ),
        "thread" => (
            "TCB CNODE GUARD ROOT PRIORITY BUDGET FAULT LABEL BASE",
            "PRIORITY is 0 to 255, BUDGET 1 to 2^62; at most 64 threads",
        ),
        _ => return None,
    };
    Some(Form { operands, ranges })
}

/// The form of a line inside a thread that is no instruction.
fn thread_line_form(word: &str) -> Option<Form> {
    let (operands, ranges) = match word {
        "buffer" => ("FRAME", "at most once in a thread"),
        "reg" => (
            "xN VALUE",
            "N is 1 to 31, each once; VALUE is 1 to 0xffffffff",
        ),
        "measure" => (
            "CONSTANT [xN COEFFICIENT] ..",
            "at most 4 terms, each register once, no coefficient 0; one for each instruction",
        ),
        "range" => (
            "xN LOW HIGH",
            "LOW is at most HIGH, and not all values together; each register once",
        ),
        "slot" => (
            "CNODE INDEX WORD0 WORD1 PARENT PARENT_INDEX",
            "the two words of a capability, or 0 0 with the parent `boot 0`; each slot once",
        ),
        "word" => ("N", "N has 32 bits"),
        "end" => (
            "",
            "nothing comes after it; a thread has 1 to 65536 instructions",
        ),
        _ => return None,
    };
    Some(Form { operands, ranges })
}

/// The form of the lines that begin with a word.
pub(crate) fn form_of(word: &str) -> Option<Form> {
    match declaration_form(word) {
        Some(form) => Some(form),
        None => match thread_line_form(word) {
            Some(form) => Some(form),
            None => instruction_form(word),
        },
    }
}

/// What is written in place of a usual short form.
pub(crate) fn long_form(word: &str) -> Option<&'static str> {
    Some(match word {
        "li" => "`addi xD x0 NUMBER`, or for large numbers `lui xD NUMBER` and `addi xD xD NUMBER`",
        "la" => "`lui xD NUMBER` and `addi xD xD NUMBER` with the address",
        "mv" => "`addi xD xS 0`",
        "j" => "`jal x0 LABEL`",
        "nop" => "`addi x0 x0 0`",
        "not" => "`xori xD xS -1`",
        "neg" => "`sub xD x0 xS`",
        "subi" => "`addi xD xS -NUMBER`",
        "beqz" => "`beq xS x0 LABEL`",
        "bnez" => "`bne xS x0 LABEL`",
        "bgt" => "`blt xT xS LABEL`, the registers in the other order",
        "ble" => "`bge xT xS LABEL`, the registers in the other order",
        "bgtu" => "`bltu xT xS LABEL`, the registers in the other order",
        "bleu" => "`bgeu xT xS LABEL`, the registers in the other order",
        "seqz" => "`sltiu xD xS 1`",
        "snez" => "`sltu xD x0 xS`",
        "call" | "ret" | "jr" => "code in its place: there are no jumps to addresses in registers",
        _ => return None,
    })
}

/// The usual names of the registers, in their order.
const REGISTER_NAMES: [&str; 32] = [
    "zero", "ra", "sp", "gp", "tp", "t0", "t1", "t2", "s0", "s1", "a0", "a1", "a2", "a3", "a4",
    "a5", "a6", "a7", "s2", "s3", "s4", "s5", "s6", "s7", "s8", "s9", "s10", "s11", "t3", "t4",
    "t5", "t6",
];

/// The number of a register by its usual name.
pub(crate) fn register_name(word: &str) -> Option<u32> {
    if word == "fp" {
        return Some(8);
    }
    for number in 0..32 {
        if REGISTER_NAMES[number as usize] == word {
            return Some(number);
        }
    }
    None
}
