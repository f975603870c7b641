//! Loading an image into a new machine, whose threads then run.

ghost use Rattle.std.specs.Prelude.{◌≡◌, ◌⊎◌, IfErr, IfOk, OnOk, Err, Ok, true};
ghost use Rattle.soundness.specs.boot_laws.Standing.{StandApart};
ghost use Rattle.kernel_machine.specs.Setups.{state_in};
ghost use Rattle.model.specs.Acceptance.Accepted.{IsWellFormed};
ghost use Rattle.model.specs.Images.Boot.{booted};
ghost use Rattle.model.specs.Images.Described.{described};
ghost use Rattle.model.specs.Images.Image.{whole_image};
ghost use Rattle.model.specs.declared.boot_faults.BootFault.TheVariants.{OutOfMemory};

use bootstrap::load_unverified;
use image_reading::ImageRef;
use kernel::System;
use model::BootFault;
use soundness::{objects_stand_inside_their_untypeds, well_formed_images_boot};
use std::alloc::{AllocError, Global};
use verify::Accepted;

/// Loads an image into a new machine by kernel calls alone, and lets its threads run.
///
/// seL4 Reference Manual, "System Bootstrapping"; the calls and their order are this project's own.
///
/// # Errors
///
/// What kept the image from being loaded ([`BootFault`]). Nothing is left of the machine then.
pub fn boot_unverified(alloc: Global, image: &ImageRef<'_>) -> Result<System, BootFault>
    ensures booted { IfOk result (λ system. booted image.now ≡ Ok (state_in system)) }
    ensures fault { IfErr result (λ fault. (fault ≡ OutOfMemory) ⊎ (booted image.now ≡ Err fault)) }
    // A well-formed image boots, if memory is not refused.
    ensures formed { whole_image.fits image.now ≡ true → IsWellFormed image.now → IfErr result (λ fault. fault ≡ OutOfMemory) }
{
    match load_unverified(alloc, image) {
        Ok(machine) => Ok(System::of(machine)),
        Err(fault) => Err(fault),
    }
}

/// Boots an accepted image into the state that it describes: no call fails, and nothing lies outside.
///
/// seL4 Reference Manual, "System Bootstrapping".
///
/// # Errors
///
/// Memory is refused, and nothing else.
pub fn boot(alloc: Global, accepted: &Accepted<'_>) -> Result<System, AllocError>
    // It comes to the state that the image describes,
    ensures state { IfOk result (λ system. state_in system ≡ described accepted.now) }
    // no call of the loader fails,
    ensures calls { OnOk result (booted accepted.now ≡ Ok (described accepted.now)) }
    // and each object lies inside its untyped memory, and no two overlap.
    ensures inside { OnOk result (StandApart accepted.now) }
{
    well_formed_images_boot();
    objects_stand_inside_their_untypeds();
    match boot_unverified(alloc, accepted.image()) {
        Ok(system) => Ok(system),
        Err(fault) => match fault {
            BootFault::OutOfMemory => Err(AllocError),
            _ => unreachable!(),
        },
    }
}
