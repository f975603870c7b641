//! Certificates of programs that have none: what is known of registers and slots at each point, and measures.
#![tactic(auto)]

mod bare_threads;
mod calls;
mod certifier;
mod costs;
mod faults;
mod findings;
mod flow;
mod forms;
mod graph;
mod looked;
mod loops;
mod marks;
mod needs;
mod prints;
mod ranged;
mod shared;
mod stretches;
mod tables;
mod ways;

pub use certifier::{Certificate, Effort, Record, Unfit, certificates};
pub use faults::{Fault, Reason};
pub use findings::{Finding, ThreadFindings, findings_in};
