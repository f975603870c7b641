//! Loading an image: a new machine, and the kernel calls that make of it what the image describes.
//! seL4 Reference Manual, "System Bootstrapping".
#![tactic(auto)]

mod boot_images;
mod boot_slots;
mod entry_addresses;
mod fills;
mod loading;
mod object_places;
mod systems;
mod untyped_places;

pub use systems::load_unverified;
