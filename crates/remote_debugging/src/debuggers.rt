//! What a debugger keeps of a session: nothing of it grows with the packets that come.

use crate::parts::{Object, Part, objects_of};
use debugging::{Breakpoint, Run, Stops, Watch, place_seen};
use image_reading::ImageRef;
use model::{Access, BootFault, Event};
use named_traces::TextNames;
use runner::DevicePages;
use std::alloc::{AllocError, Global};

/// The most breakpoints, and the most watches.
const MOST_STOPS: usize = 256;

/// How many bytes are watched at once at most: those of a page.
const MOST_WATCHED: u32 = 4096;

/// What is debugged.
#[derive(Clone, Copy)]
pub struct Scene<'s, 't, 'i, 'b> {
    pub image: &'i ImageRef<'b>,
    pub text: &'t str,
    pub names: &'s TextNames<'t>,
    pub parts: &'s [Part<'t>],
    /// The part whose breakpoints and watches are set, by its number; without one they are for all.
    pub only: Option<usize>,
    /// Whether events are given, after which a run does not go on by itself.
    pub ends: bool,
}

/// Bytes that are watched, as the debugger names them.
#[derive(Clone, Copy, Debug, PartialEq, Eq)]
pub(crate) struct Watched {
    pub(crate) address: u32,
    pub(crate) length: u32,
}

/// A session.
#[derive(Drop)]
pub struct Debugger<'s, 't, 'i, 'b> {
    pub(crate) alloc: Global,
    pub(crate) scene: Scene<'s, 't, 'i, 'b>,
    pub(crate) run: Run<'i, 'b>,
    pub(crate) pages: DevicePages,
    pub(crate) objects: Vec<Object<'t>>,
    pub(crate) stops: Stops,
    /// What is watched, in the order of the watches.
    pub(crate) watched: Vec<Watched>,
    /// What the last motion found changed.
    pub(crate) hit: Option<Watched>,
    /// The part whose registers and memory are shown, by its number.
    pub(crate) selected: usize,
    /// The part that steps, by its number.
    pub(crate) moving: usize,
    /// The part for which breakpoints and watches are set.
    pub(crate) only: Option<usize>,
    /// How many instructions each part has run since its last wait, and after how many events that is so.
    pub(crate) used: Vec<u64>,
    pub(crate) used_at: Option<usize>,
}

impl<'s, 't, 'i, 'b> Debugger<'s, 't, 'i, 'b> {
    /// A session with a system over events, of which none is done.
    ///
    /// # Errors
    ///
    /// The image does not boot, or memory is refused.
    pub fn start(
        alloc: Global,
        scene: Scene<'s, 't, 'i, 'b>,
        events: Vec<Event>,
    ) -> Result<Self, BootFault> {
        let first = scene.only.unwrap_or(0);
        let run = Run::start(alloc, scene.image, events)?;
        let (Ok(pages), Ok(objects)) = (
            DevicePages::of(alloc, scene.image),
            objects_of(alloc, scene.text, scene.image),
        ) else {
            return Err(BootFault::OutOfMemory);
        };
        Ok(Debugger {
            alloc,
            scene,
            run,
            pages,
            objects,
            stops: Stops::new(alloc),
            watched: Vec::new(alloc),
            hit: None,
            selected: first,
            moving: first,
            only: scene.only,
            used: Vec::new(alloc),
            used_at: None,
        })
    }

    /// The offset of the TCB of a part, by its number.
    pub(crate) fn thread_of(&self, part: usize) -> Option<u32> {
        match self.scene.parts.get(part) {
            Some(part) => Some(part.thread),
            None => None,
        }
    }

    /// The number of the part with this TCB.
    pub(crate) fn part_of(&self, thread: u32) -> Option<usize> {
        self.scene
            .parts
            .iter()
            .position(|part| part.thread == thread)
    }

    /// Sets a breakpoint for the part that is chosen, or for all. The result says whether there was room.
    pub(crate) fn set_breakpoint(&mut self, address: u32) -> Result<bool, AllocError> {
        if self.stops.breakpoints.len() >= MOST_STOPS {
            return Ok(false);
        }
        let part = match self.only {
            Some(part) => self.thread_of(part),
            None => None,
        };
        self.stops.breakpoints.push(Breakpoint { part, address })?;
        Ok(true)
    }

    /// Takes the breakpoints at an address away.
    pub(crate) fn clear_breakpoint(&mut self, address: u32) {
        self.stops
            .breakpoints
            .retain(|breakpoint| breakpoint.address != address);
    }

    /// The place in memory of bytes that the part that is chosen, or shown, sees at an address, where they are in one page.
    fn place_of(&self, watched: Watched) -> Option<u32> {
        let part = self.only.unwrap_or(self.selected);
        let last = watched.address % MOST_WATCHED;
        if watched.length == 0 || watched.length > MOST_WATCHED - last {
            return None;
        }
        place_seen(
            self.run.system(),
            self.thread_of(part)?,
            watched.address,
            Access::Load,
        )
    }

    /// Watches bytes. The result says whether they are there, and there was room.
    pub(crate) fn set_watch(&mut self, watched: Watched) -> Result<bool, AllocError> {
        let Some(place) = self.place_of(watched) else {
            return Ok(false);
        };
        if self.watched.len() >= MOST_STOPS {
            return Ok(false);
        }
        let mut bytes = Vec::new(self.alloc);
        bytes.resize(watched.length as usize, 0)?;
        self.watched.push(watched)?;
        self.stops.watches.push(Watch { place, bytes })?;
        Ok(true)
    }

    /// Watches these bytes no more.
    pub(crate) fn clear_watch(&mut self, watched: Watched) {
        let Some(at) = self.watched.iter().position(|it| *it == watched) else {
            return;
        };
        if at < self.watched.len() && at < self.stops.watches.len() {
            self.watched.remove(at);
            drop(self.stops.watches.remove(at));
        }
    }

    /// Keeps what is watched as it is.
    pub(crate) fn keep_watched(&mut self) {
        for watch in &mut self.stops.watches {
            let mut place = watch.place;
            for byte in &mut watch.bytes {
                *byte = self.run.system().byte(place).unwrap_or(0);
                place = place.wrapping_add(1);
            }
        }
    }
}
