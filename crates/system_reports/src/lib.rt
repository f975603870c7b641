//! Reports on systems for who has to sign: what holds of a file and by which clause, what is counted in it, what runs showed, as one page and as data.
#![tactic(auto)]

mod accesses;
mod clauses;
mod digests;
mod faults;
mod findings;
mod measuring;
mod members;
mod memory_maps;
mod pages;
mod refusals;
mod reports;
mod responding;
mod statements;
mod tables;

pub use clauses::Clause;
pub use faults::ReportFault;
pub use findings::{
    Access, Answer, AskedWithin, Declared, Device, Door, DoorRun, EventsFile, Facts, Ground, Group,
    Level, Line, LineBound, Memory, Part, PartRun, Placed, RateRow, RefusedReport, Responding,
    ResponseRow, Section, Share, Sharing, Sizes, Statement, Subject, SystemReport, TestRuns,
    Untyped, Verdict, WordRange,
};
pub use measuring::EventRun;
pub use pages::page_of;
pub use refusals::{Refusing, refused_json, refused_page};
pub use reports::{ReportRequest, json_of, report_of};
pub use responding::rate_of_word;
