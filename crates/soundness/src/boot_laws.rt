//! Well-formed images boot: definitions of the states through which a loader goes, and laws on what comes of it. Each
//! law is the contract of a function that does nothing.

mod booting_laws;
mod placing_laws;

pub use booting_laws::{described_states_are_sound, well_formed_images_boot};
pub use placing_laws::objects_stand_inside_their_untypeds;
