//! Runs of an image, event by event, forwards and back.

ghost use Rattle.std.specs.Prelude.{◌≡◌, ◌+◌, ◌-◌, ◌^◌, ◌≤◌, ◌++◌, IfOk, IfSome, OnErr, OnOk, Ok, None, length, replicate, take, true};
ghost use Rattle.debugging.specs.Runs.{IsMoment, next_of, shown, timeline, with_next};
ghost use Rattle.kernel_machine.specs.Setups.{state_in};
ghost use Rattle.model.specs.Acceptance.Accepted.{IsWellFormed};
ghost use Rattle.model.specs.Images.Boot.{booted};
ghost use Rattle.model.specs.Images.Described.{described};
ghost use Rattle.model.specs.Images.Image.{whole_image};
ghost use Rattle.model.specs.Kernel.Steps.{state_after, step};

use crate::replays::{event_at, replay};
use image_reading::ImageRef;
use kernel::System;
use loader::boot_unverified;
use model::{BootFault, Event, Label};
use soundness::well_formed_images_boot;
use std::alloc::{AllocError, Global};
use std::marker::Model;

/// The most events that a run has beside the steps after them.
const MOST_EVENTS: usize = 1 << 22;

/// Why an event is not put into a run.
#[derive(Clone, Copy, Debug, PartialEq, Eq)]
pub enum NotPut {
    /// There are too many events before it.
    TooMany,
    /// Memory was refused.
    OutOfMemory,
}

/// A run of an image: its events, and the system as it is after some of them. After the events that are given come steps. What is shown
/// is always the state after the events that are done, from the state that the image boots into.
#[derive(Drop)]
pub struct Run<'i, 'b> {
    alloc: Global,
    image: &'i ImageRef<'b>,
    events: Vec<Event>,
    done: usize,
    system: System,
}

impl<'i, 'b> Model for Run<'i, 'b> {
    ghost use Rattle.std.specs.Prelude.{◌≡◌, Ok};
    ghost use Rattle.debugging.specs.Runs.{Moment, shown};
    ghost use Rattle.kernel_machine.specs.Setups.{state_in};

    ghost Value = { Moment };

    ghost view = { λ run. record { image = run.image.now; events = run.events.items; done = run.done; parts = run.system } };

    ghost invariant = { λ run. shown run.image.now run.events.items run.done ≡ Ok (state_in run.system) };
}

impl<'i, 'b> Run<'i, 'b> {
    /// A run over events, of which none is done.
    ///
    /// # Errors
    ///
    /// The image does not boot, or memory is refused.
    pub fn start(
        alloc: Global,
        image: &'i ImageRef<'b>,
        events: Vec<Event>,
    ) -> Result<Self, BootFault>
        ensures { IfOk result (λ run. (run.image ≡ image.now) × (run.events ≡ events.items) × (run.done ≡ 0)) }
    {
        let system = boot_unverified(alloc, image)?;
        Ok(Run {
            alloc,
            image,
            events,
            done: 0,
            system,
        })
    }

    /// How many events are done.
    pub fn done(&self) -> usize
        ensures { result ≡ self.now.done }
    {
        self.done
    }

    /// How many events are given; after them come steps.
    pub fn given(&self) -> usize
        ensures { result ≡ length self.now.events }
    {
        self.events.len()
    }

    /// The event that is next.
    pub fn next_event(&self) -> Event
        ensures { result ≡ next_of self.now.events self.now.done }
    {
        event_at(self.events.as_slice(), self.done)
    }

    /// The system as it is.
    pub fn system(&self) -> &System
        ensures value { result.now ≡ self.now.parts }
        ensures shown { shown self.now.image self.now.events self.now.done ≡ Ok (state_in result.now) }
    {
        &self.system
    }

    /// Does the next event, and gives its label. Of 2^64 - 1 events there is no next one.
    pub fn go_on(&mut self) -> Option<Label>
        ensures done { IfSome result (λ _. IsMoment self.old self.new (self.old.done + 1)) }
        ensures state { IfSome result (λ _. state_in self.new.parts ≡ (step (state_in self.old.parts) (next_of self.old.events self.old.done)).0) }
        ensures label { IfSome result (λ label. label ≡ (step (state_in self.old.parts) (next_of self.old.events self.old.done)).1) }
        ensures none { result ≡ None → (self.new ≡ self.old) × (2 ^ 64 ≤ self.old.done + 1) }
    {
        let done = self.done.checked_add(1)?;
        let event = self.next_event();
        let label = self.system.step(event);
        self.done = done;
        Some(label)
    }

    /// Puts an event into the run, which is the next one.
    ///
    /// # Errors
    ///
    /// There are too many events before it, or memory is refused; the run stays as it is.
    pub fn put_next(&mut self, event: Event) -> Result<(), NotPut>
        ensures next { OnOk result (self.new.events ≡ with_next self.old.events self.old.done event) }
        ensures kept { (self.new.image ≡ self.old.image) × (self.new.done ≡ self.old.done) × (self.new.parts ≡ self.old.parts) }
        ensures unchanged { OnErr result (self.new ≡ self.old) }
    {
        if self.done >= MOST_EVENTS || self.events.len() >= MOST_EVENTS {
            return Err(NotPut::TooMany);
        }
        put_at(&mut self.events, self.done, event)
    }

    /// Comes to the moment of the same run at which so many events are done: forwards, or back.
    ///
    /// # Errors
    ///
    /// Memory is refused; the run stays as it is.
    pub fn wind_to(&mut self, count: usize) -> Result<(), AllocError>
        // So many events are done of the same run,
        ensures moment { OnOk result (IsMoment self.old self.new count) }
        // and the state is that after so many events,
        ensures state { OnOk result (shown self.old.image self.old.events count ≡ Ok (state_in self.new.parts)) }
        // for an accepted image from the state that it describes.
        ensures described { OnOk result (whole_image.fits self.old.image ≡ true → IsWellFormed self.old.image
            → state_in self.new.parts ≡ state_after (described self.old.image) (timeline self.old.events count)) }
        ensures unchanged { OnErr result (self.new ≡ self.old) }
    {
        well_formed_images_boot();
        let Ok(mut system) = boot_unverified(self.alloc, self.image) else {
            return Err(AllocError);
        };
        replay(&mut system, self.events.as_slice(), count);
        self.system = system;
        self.done = count;
        Ok(())
    }

    /// The system before the first event, as a new one.
    ///
    /// # Errors
    ///
    /// Memory is refused.
    pub(crate) fn at_start(&self) -> Result<System, AllocError>
        ensures { IfOk result (λ system. booted self.now.image ≡ Ok (state_in system)) }
    {
        match boot_unverified(self.alloc, self.image) {
            Ok(system) => Ok(system),
            Err(_) => Err(AllocError),
        }
    }

    /// The events that are given.
    pub(crate) fn events(&self) -> &[Event]
        ensures { result.now ≡ self.now.events }
    {
        self.events.as_slice()
    }
}

/// Makes a list so long: it is cut, or steps are added.
fn fill_to(events: &mut Vec<Event>, count: usize) -> Result<(), NotPut>
    ensures filled { OnOk result (events.new.items ≡ take count events.old.items ++ replicate (count - length events.old.items) Event.Step) }
    ensures unchanged { OnErr result (events.new.items ≡ events.old.items) }
{
    match events.resize(count, Event::Step) {
        Ok(()) => Ok(()),
        Err(_) => Err(NotPut::OutOfMemory),
    }
}

/// Puts an event at a place; before it steps are where no events are given.
fn put_at(events: &mut Vec<Event>, place: usize, event: Event) -> Result<(), NotPut>
    ensures put { OnOk result (events.new.items ≡ with_next events.old.items place event) }
    ensures unchanged { OnErr result (events.new.items ≡ events.old.items) }
{
    let known = events.len();
    fill_to(events, known.max(place))?;
    match events.insert(place, event) {
        Ok(()) => Ok(()),
        Err(_) => {
            events.truncate(known);
            Err(NotPut::OutOfMemory)
        }
    }
}
