//! Descriptions of systems: what is wrong or odd is reported by its line, and systems come out accepted.

mod joined;
mod notes;
mod places;
mod refusals;
mod rows;
mod samples;
mod texts;
