//! Damaged images: each beginning of a sample and each sample with a byte changed is refused by its name, or
//! accepted and then free of faults and errors. The counts agree with those of `tools/damage/reckon.py`, which was
//! written from the format and the rules alone.

mod cuts;
mod outcomes;
mod turns;
