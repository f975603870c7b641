//! The program over real files, and what it runs.

mod builds;
mod edges;
mod event_lines;
mod live;
mod outputs;
mod outside;
mod sessions;
mod unverified;
mod usage;
mod verified;
mod words;
mod workers;
