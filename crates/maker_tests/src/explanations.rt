//! Typical mistakes in texts of systems, and how they are explained; pictures; traces beside texts.

mod charts;
mod countdowns;
mod first_differences;
mod pictures;
mod pools;
mod rows;
