//! Tests on the public calls of `microsys` and of the layers that it is built on. What no clause says: the printed rows over real
//! files, the reading of words, texts and event lists, verdicts on images, and refusals at the edges of files.
#![tactic(auto)]

#[cfg(test)]
mod assembling;
#[cfg(test)]
mod damage;
#[cfg(test)]
mod images;
#[cfg(test)]
mod listed;
#[cfg(test)]
mod response_numbers;
#[cfg(test)]
mod running;
#[cfg(test)]
mod verdicts;
