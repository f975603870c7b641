//! The words of the program's command line.

use clap::{Arg, ArgAction, Command};
use std::alloc::{AllocError, Global};

/// The version of the program, those of the images that it reads, and the kit that proves it, a line for each.
pub const VERSION: &str =
    "0.1.0\nimages of versions 1 to 4\nproved with rattle-kit-13f logic dac8208d650f15bf";

/// What is said after all words.
const STATUSES: &str =
    "`-` is standard input, or where a text or an image is written standard output.\n\nExit status: 0 done; 1 refused, with the reason; 2 wrong words; \
     3 a file, the output or memory.";

/// What is said of a list of events.
const EVENTS: &str =
    "lines `step [N]`, `tick`, `irq LINE`, `write PAGE INDEX WORD` and `read PAGE INDEX`, by names or numbers; \
     of `run` each line of standard input is answered before the next is read";

/// What follows a word: `NAME` is a file, `?NAME` one that may be left out, `?NAME .. NAME` and `?NAME ..` any number of words, `--NAME` a
/// word that may be there, `--NAME N` such a word with a number, and `-D WORD` and `--NAME WORD ..` ones that may be there again and again.
#[derive(Clone, Copy)]
struct Argument<'a> {
    form: &'a str,
    help: &'a str,
}

/// A word of the program.
struct Word<'a> {
    name: &'a str,
    about: &'a str,
    arguments: &'a [Argument<'a>],
}

/// Numbers for names of a description.
const GIVEN: Argument<'_> = Argument {
    form: "-D NAME=NUMBER",
    help: "the number of a line `let NAME ..` of the description",
};

/// The words that make something of a system.
const MAKING: [Word<'_>; 5] = [
    Word {
        name: "make",
        about: "Makes an accepted image of a system: expands, certifies, builds and verifies",
        arguments: &[
            Argument {
                form: "SYSTEM",
                help: "the file of a description, or of a text",
            },
            Argument {
                form: "IMAGE",
                help: "the file that gets the image",
            },
            Argument {
                form: "--strict",
                help: "refuses a system of which there are notes",
            },
            GIVEN,
        ],
    },
    Word {
        name: "expand",
        about: "Writes the text of a description, and notes on it",
        arguments: &[
            Argument {
                form: "DESCRIPTION",
                help: "the file of a description",
            },
            Argument {
                form: "TEXT",
                help: "the file that gets the text",
            },
            Argument {
                form: "--strict",
                help: "refuses a description of which there are notes",
            },
            GIVEN,
        ],
    },
    Word {
        name: "certify",
        about: "Writes a text with the certificates and budgets that are found for it",
        arguments: &[
            Argument {
                form: "SOURCE",
                help: "the file of a text",
            },
            Argument {
                form: "CERTIFIED",
                help: "the file that gets the text with its certificates",
            },
        ],
    },
    Word {
        name: "alone",
        about: "Writes some parts of a system as a system of its own, and says what they take from the others",
        arguments: &[
            Argument {
                form: "SYSTEM",
                help: "the file of a description, a text or an image",
            },
            Argument {
                form: "?PART .. OUT",
                help: "the names of the parts, and last the file that gets the system: a text, or an image where SYSTEM is one",
            },
        ],
    },
    Word {
        name: "test",
        about: "Runs a system, and says the first difference from what is expected",
        arguments: &[
            Argument {
                form: "SYSTEM",
                help: "the file of a description, a text or an image",
            },
            Argument {
                form: "EVENTS",
                help: EVENTS,
            },
            Argument {
                form: "EXPECTED",
                help: "the lines of a trace, with names or without, or of bytes",
            },
        ],
    },
];

/// The words on images, which are those of `microsys` too.
const IMAGES: [Word<'_>; 3] = [
    Word {
        name: "verify",
        about: "Says whether an image is accepted, or the first rule that it breaks",
        arguments: &[Argument {
            form: "IMAGE",
            help: "the file of an image",
        }],
    },
    Word {
        name: "run",
        about: "Verifies and boots a system, and prints a line for each event, with the names of the system",
        arguments: &[
            Argument {
                form: "SYSTEM",
                help: "the file of a description, a text or an image",
            },
            Argument {
                form: "EVENTS",
                help: EVENTS,
            },
            Argument {
                form: "--unverified",
                help: "boots an image that is not accepted, too",
            },
            Argument {
                form: "--plain",
                help: "prints lines without names, as `microsys run` does",
            },
            Argument {
                form: "--bytes",
                help: "puts the bytes that threads print, and nothing else",
            },
            Argument {
                form: "--bytes-of PART",
                help: "puts the bytes that this part prints, and nothing else",
            },
            Argument {
                form: "--by-part",
                help: "puts the bytes that parts print, by lines that begin with the part's name",
            },
        ],
    },
    Word {
        name: "build",
        about: "Makes the image of a text",
        arguments: &[
            Argument {
                form: "SOURCE",
                help: "the file of a text",
            },
            Argument {
                form: "IMAGE",
                help: "the file that gets the image",
            },
        ],
    },
];

/// The words that show something of a system.
const SHOWING: [Word<'_>; 8] = [
    Word {
        name: "gdb",
        about: "Debugs a system: speaks gdb's remote serial protocol over standard input and output",
        arguments: &[
            Argument {
                form: "SYSTEM",
                help: "the file of a description, a text or an image",
            },
            Argument {
                form: "?EVENTS",
                help: EVENTS,
            },
            Argument {
                form: "--part PART",
                help: "sets breakpoints and watches for this part, and not for all",
            },
            Argument {
                form: "--unverified",
                help: "debugs an image that is not accepted, too",
            },
        ],
    },
    Word {
        name: "explain",
        about: "Says why a system is refused, by lines and names, and by how much",
        arguments: &[
            Argument {
                form: "SYSTEM",
                help: "the file of a description, a text or an image",
            },
            GIVEN,
        ],
    },
    Word {
        name: "draw",
        about: "Draws a system as a graph, for Graphviz",
        arguments: &[
            Argument {
                form: "SYSTEM",
                help: "the file of a description, a text or an image",
            },
            Argument {
                form: "--svg",
                help: "draws it as SVG, which needs no other program",
            },
            GIVEN,
        ],
    },
    Word {
        name: "parts",
        about: "Says which parts of a system may change what others take, and which groups take nothing from the others",
        arguments: &[Argument {
            form: "SYSTEM",
            help: "the file of a description, a text or an image",
        }],
    },
    Word {
        name: "response",
        about: "Says for how many instructions on end the parts of each priority and above run at most, and within how many each interrupt is dealt with",
        arguments: &[
            Argument {
                form: "SYSTEM",
                help: "the file of a description, a text or an image",
            },
            Argument {
                form: "?LINE BURST PERIOD ..",
                help: "how often interrupts of a line come: at most so many at once, and one more after each so many instructions",
            },
        ],
    },
    Word {
        name: "chart",
        about: "Draws who ran when by a trace, as SVG",
        arguments: &[
            Argument {
                form: "TRACE",
                help: "the lines that `run` printed",
            },
            Argument {
                form: "?SYSTEM",
                help: "the system that ran, for names, lines and budgets",
            },
            Argument {
                form: "--from N",
                help: "the first event that is drawn, counted from 1",
            },
            Argument {
                form: "--to N",
                help: "the last event that is drawn",
            },
        ],
    },
    Word {
        name: "list",
        about: "Writes the text of an image, with sizes, free memory and who holds what",
        arguments: &[Argument {
            form: "IMAGE",
            help: "the file of an image",
        }],
    },
    Word {
        name: "diff",
        about: "Says what the second system may do that the first may not; status 1 if there is any",
        arguments: &[
            Argument {
                form: "BEFORE",
                help: "the file of a description, a text or an image",
            },
            Argument {
                form: "AFTER",
                help: "the file of a description, a text or an image",
            },
        ],
    },
];

/// The word that writes a report.
const REPORTING: [Word<'_>; 1] = [Word {
    name: "report",
    about: "Writes a page on a system for who has to sign: what holds of this file, by which clause, and what tests showed",
    arguments: &[
        Argument {
            form: "SYSTEM",
            help: "the file of a description, a text or an image",
        },
        Argument {
            form: "OUT",
            help: "the file that gets the page",
        },
        Argument {
            form: "?EVENTS ..",
            help: "lists of events that are run, for what tests showed",
        },
        Argument {
            form: "--json",
            help: "writes the same as data",
        },
        Argument {
            form: "--rate RATE ..",
            help: "how often interrupts of a line come, as LINE:BURST:PERIOD, for bounds on responses",
        },
        GIVEN,
    ],
}];

/// An argument of this form.
fn argument_of<'a>(alloc: Global, form: &'a str) -> Arg<'a> {
    if let Some(value) = form.strip_prefix("-D ") {
        return Arg::new(alloc, "D")
            .short('D')
            .value_name(value)
            .action(ArgAction::Append);
    }
    if let Some(flag) = form.strip_prefix("--") {
        return match flag.split_once(' ') {
            Some((name, "N")) => Arg::new(alloc, name)
                .long(name)
                .value_name("N")
                .value_parser(clap::value_parser!(u64)),
            Some((name, value)) => match value.strip_suffix(" ..") {
                Some(value) => Arg::new(alloc, name)
                    .long(name)
                    .value_name(value)
                    .action(ArgAction::Append),
                None => Arg::new(alloc, name).long(name).value_name(value),
            },
            None => Arg::new(alloc, flag).long(flag).action(ArgAction::SetTrue),
        };
    }
    match form.strip_prefix("?") {
        Some(names) if names.contains(" ..") => Arg::new(alloc, names)
            .num_args(0..)
            .action(ArgAction::Append),
        Some(name) => Arg::new(alloc, name),
        None => Arg::new(alloc, form).required(true),
    }
}

/// A word and what follows it.
fn command<'a>(alloc: Global, word: &Word<'a>) -> Result<Command<'a>, AllocError> {
    let mut command = Command::new(alloc, word.name).about(word.about);
    for Argument { form, help } in word.arguments {
        command = command.arg(argument_of(alloc, *form).help(*help))?;
    }
    Ok(command)
}

/// The program with these words more.
fn with_words<'a>(
    alloc: Global,
    mut program: Command<'a>,
    words: &[Word<'a>],
) -> Result<Command<'a>, AllocError> {
    for word in words {
        program = program.subcommand(command(alloc, word)?)?;
    }
    Ok(program)
}

/// The program with all of its words.
pub(crate) fn program<'a>(alloc: Global) -> Result<Command<'a>, AllocError> {
    let program = Command::new(alloc, "microsys_tool")
        .about("Makes, explains and shows systems for microsys")
        .version(VERSION)
        .after_help(STATUSES)
        .bin_name("microsys_tool")?
        .no_binary_name(true)
        .subcommand_required(true);
    let program = with_words(alloc, program, &MAKING)?;
    let program = with_words(alloc, program, &IMAGES)?;
    let program = with_words(alloc, program, &SHOWING)?;
    with_words(alloc, program, &REPORTING)
}
