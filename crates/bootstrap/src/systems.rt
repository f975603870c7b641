//! Loading a whole image into a new machine.

ghost use Rattle.std.specs.Prelude.{◌≡◌, ◌+◌, ◌^◌, ◌≤◌, ◌⊎◌, IfOk, IfErr, Ok, Err, map, true};
ghost use Rattle.bootstrap.specs.Filling.{ArePlaces};
ghost use Rattle.bootstrap.specs.Loading.{all_performed, called, performed, placed, progress_of};
ghost use Rattle.kernel_machine.specs.Setups.{state_in};
ghost use Rattle.model.specs.Kernel.Outcomes.{GivesState};
ghost use Rattle.model.specs.Acceptance.Accepted.{IsWellFormed};
ghost use Rattle.model.specs.Images.Boot.{booted};
ghost use Rattle.model.specs.Images.BootCalls.{PutsControl, PutsUntyped, first_calls, last_calls, operations};
ghost use Rattle.model.specs.Images.Described.{numbered};
ghost use Rattle.model.specs.Images.Image.{whole_image};
ghost use Rattle.model.specs.Images.Places.{control_slot};
ghost use Rattle.model.specs.declared.boot_faults.BootFault.TheVariants.{OutOfMemory};
ghost use Rattle.model.specs.Kernel.Setup.{put_untyped};

use crate::boot_images::BootImage;
use crate::boot_slots::control_slot;
use crate::loading::Loader;
use crate::object_places::places_of;
use crate::untyped_places::misplaced;
use image_reading::ImageRef;
use kernel_machine::Machine;
use model::{BootFault, UntypedEntry};
use std::alloc::Global;

/// Loads an image into a new machine by kernel calls alone.
///
/// seL4 Reference Manual, "System Bootstrapping"; the calls and their order are this project's own.
///
/// # Errors
///
/// What kept the image from being loaded ([`BootFault`]). Nothing is left of the machine then.
pub fn load_unverified(alloc: Global, image: &ImageRef<'_>) -> Result<Machine, BootFault>
    ensures loaded { IfOk result (λ machine. booted image.now ≡ Ok (state_in machine)) }
    ensures fault { IfErr result (λ fault. (fault ≡ OutOfMemory) ⊎ (booted image.now ≡ Err fault)) }
    // A well-formed image is loaded, if memory is not refused.
    ensures formed { whole_image.fits image.now ≡ true → IsWellFormed image.now → IfErr result (λ fault. fault ≡ OutOfMemory) }
{
    let header = image.header();
    let boot_image = BootImage { read: image };
    if let Some(number) = misplaced(&boot_image) {
        return Err(BootFault::Outside(number));
    }
    let Ok(places) = places_of(alloc, image) else {
        return Err(BootFault::OutOfMemory);
    };
    let Ok(machine) = Machine::new(alloc, header.memory_bits, header.boot_radix) else {
        return Err(BootFault::OutOfMemory);
    };
    let mut loader = Loader { machine, calls: 0 };
    loader.load(&boot_image, &places)?;
    Ok(loader.machine)
}

impl Loader {
    /// All that the loader does, in its order.
    fn load(&mut self, image: &BootImage<'_, '_>, places: &[u64]) -> Result<(), BootFault>
        requires places { ArePlaces image.now.read.now image.now.read.now.header.objects places.now }
        requires first { self.old.calls ≡ 0 }
        ensures { GivesState (all_performed image.now.read.now.header.untypeds (progress_of self.old) (operations image.now.read.now)) result
            (progress_of self.new) }
    {
        self.put_untypeds(image)?;
        self.put_control(image)?;
        self.make_first_calls(image)?;
        self.fill_contents(image, places)?;
        self.fill_programs(image, places)?;
        self.make_last_calls(image)
    }

    /// Puts the untyped memory into its boot slots.
    fn put_untypeds(&mut self, image: &BootImage<'_, '_>) -> Result<(), BootFault>
        ensures outcome { GivesState (all_performed image.now.read.now.header.untypeds (progress_of self.old)
            (map (λ u. PutsUntyped u.0 u.1) (numbered image.now.read.now.untypeds))) result (progress_of self.new) }
        ensures counted { self.new.calls ≡ self.old.calls }
    {
        for number in 0..image.read.header().untypeds {
            let entry = image.read.untyped(number);
            self.put_untyped(number, entry)?;
        }
        Ok(())
    }

    /// Puts untyped memory into its boot slot.
    fn put_untyped(&mut self, number: u32, entry: UntypedEntry) -> Result<(), BootFault>
        requires { entry.bits ≤ 24 }
        ensures outcome { GivesState (placed number self.old.calls (put_untyped (state_in self.old.machine) number entry.offset entry.bits)) result
            (progress_of self.new) }
        ensures counted { self.new.calls ≡ self.old.calls }
    {
        if self.machine.untyped(number, entry.offset, entry.bits as u8) {
            Ok(())
        } else {
            Err(BootFault::Outside(number))
        }
    }

    /// Puts interrupt control into its boot slot.
    fn put_control(&mut self, image: &BootImage<'_, '_>) -> Result<(), BootFault>
        ensures outcome { GivesState (performed image.now.read.now.header.untypeds (progress_of self.old) (PutsControl (control_slot image.now.read.now)))
            result (progress_of self.new) }
        ensures counted { self.new.calls ≡ self.old.calls }
    {
        if self.machine.control(control_slot(image)) {
            Ok(())
        } else {
            Err(BootFault::Outside(image.read.header().untypeds))
        }
    }

    /// The calls before frames are filled.
    fn make_first_calls(&mut self, image: &BootImage<'_, '_>) -> Result<(), BootFault>
        requires room { self.old.calls ≡ 0 }
        ensures outcome { GivesState (called (progress_of self.old) (first_calls image.now.read.now)) result (progress_of self.new) }
        ensures counted { self.new.calls ≤ self.old.calls + 2 ^ 15 }
    {
        self.make_objects(image)?;
        self.take_handlers(image)?;
        self.put_capabilities(image)?;
        self.map_tables(image)?;
        self.map_frames(image)
    }

    /// The calls after that.
    fn make_last_calls(&mut self, image: &BootImage<'_, '_>) -> Result<(), BootFault>
        requires room { self.old.calls ≤ 2 ^ 16 }
        ensures { GivesState (called (progress_of self.old) (last_calls image.now.read.now)) result (progress_of self.new) }
    {
        self.bind_interrupts(image)?;
        self.start_threads(image)
    }
}
