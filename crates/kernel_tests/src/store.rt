//! Capability slots, lookup, decoding, CNodes and address spaces over a plain table of slots.

mod asking;
mod changes;
mod cnode_calls;
mod decoding;
mod fresh;
mod lookups;
mod manual_rows;
mod mappings;
mod nodes;
mod rows;
mod trees;
