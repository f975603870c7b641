//! Tests on the words of `microsys_tool` and on what they are built on: what no clause says of descriptions, certificates,
//! explanations, pictures, differences, and traces beside texts.
#![tactic(auto)]

#[cfg(test)]
mod byte_sinks;
#[cfg(test)]
mod certification;
#[cfg(test)]
mod changed;
#[cfg(test)]
mod commands;
#[cfg(test)]
mod descriptions;
#[cfg(test)]
mod explanations;
#[cfg(test)]
mod noted_calls;
#[cfg(test)]
mod parts_alone;
#[cfg(test)]
mod reported;
#[cfg(test)]
mod runs_by_names;
#[cfg(test)]
mod told_responses;
#[cfg(test)]
mod worked_lines;
