//! The clauses that a report names, and where the repository says what they promise.

use serde::Serialize;

/// A clause of a public function, which the gate proves.
#[derive(Clone, Copy, Serialize)]
#[serde(rename_all = "snake_case")]
pub enum Clause {
    /// The image is accepted.
    Accepted,
    /// The digest is that of the bytes.
    Digest,
    /// Its runs are safe, and budgets are kept.
    SafeRun,
    /// Messages that wait keep the promises of their endpoints.
    Promises,
    /// An event changes only what authority lets it.
    Authority,
    /// No thread holds more than the image gave it.
    Held,
    /// Nobody outside may change what a part takes.
    TakesNothing,
    /// How soon levels of threads come to rest.
    Responses,
    /// Parts deal with interrupts as soon as they are asked to.
    Kept,
    /// What is refused breaks a rule.
    Refused,
}

/// All of them, in the order of the page.
pub(crate) const CLAUSES: [Clause; 10] = [
    Clause::Accepted,
    Clause::Digest,
    Clause::SafeRun,
    Clause::Promises,
    Clause::Authority,
    Clause::Held,
    Clause::TakesNothing,
    Clause::Responses,
    Clause::Kept,
    Clause::Refused,
];

impl Clause {
    /// The function and its clause.
    pub fn name(self) -> &'static str {
        match self {
            Clause::Accepted => "verify::verify, accepted",
            Clause::Digest => "system_reports::report_of, digest",
            Clause::SafeRun => "runner::run, ok",
            Clause::Promises => "runner::run, ok, promises",
            Clause::Authority => "runner::run, ok, within and integrity",
            Clause::Held => "parts::parts_of, held",
            Clause::TakesNothing => "parts::Parts::takes_nothing",
            Clause::Responses => "responses::responded, bounds",
            Clause::Kept => "response_lines::keep, kept",
            Clause::Refused => "verify::verify, refused",
        }
    }

    /// The section of the repository's page on what is proved.
    pub fn link(self) -> &'static str {
        match self {
            Clause::Digest => "docs/PROVED.md#texts-and-images",
            _ => "docs/PROVED.md#the-five-promises",
        }
    }

    /// What it promises.
    pub fn says(self) -> &'static str {
        match self {
            Clause::Accepted => {
                "What the verifier accepts is an accepted image: no rule of acceptance is broken."
            }
            Clause::Digest => {
                "The digits are those of the SHA-256 of the bytes that were verified, as the definition of sha2 says."
            }
            Clause::SafeRun => {
                "If a run ends well, the image is accepted, it booted with no kernel error into the state that it describes, no line of the trace is a fault \
                 or an error, and no thread takes more steps from one wait to the next than its budget."
            }
            Clause::Promises => "Each message that waits keeps the promise of its endpoint.",
            Clause::Authority => {
                "Each event changes only what authority lets it; over a whole run a byte changes only where a thread that made one of the steps may write by \
                 the image, or where the world wrote a word of a device page."
            }
            Clause::Held => {
                "After any events each capability in the slots of a thread is covered by one that the image lists for it, or is to memory that it was given, \
                 or is a handler that is listed for it."
            }
            Clause::TakesNothing => {
                "The answer is the Boolean of the definition: whether no thread outside may change anything that a thread of the part takes, by the \
                 capabilities, mappings, message buffers and handlers of the image."
            }
            Clause::Responses => {
                "Over all events that keep the rates no more steps on end are of the threads of a priority and above than the bound says."
            }
            Clause::Kept => {
                "Over all events that keep the rates of the text, once the threads of its priority and above have rested, such a thread has dealt with each \
                 interrupt of such a line within so many steps of theirs."
            }
            Clause::Refused => {
                "A refusal is the first rule that the image breaks, or that memory was refused."
            }
        }
    }

    /// Its place among all.
    pub(crate) fn number(self) -> u32 {
        match self {
            Clause::Accepted => 1,
            Clause::Digest => 2,
            Clause::SafeRun => 3,
            Clause::Promises => 4,
            Clause::Authority => 5,
            Clause::Held => 6,
            Clause::TakesNothing => 7,
            Clause::Responses => 8,
            Clause::Kept => 9,
            Clause::Refused => 10,
        }
    }
}
