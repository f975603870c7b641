//! The names of untypeds, objects and interrupts.

ghost use Rattle.std.specs.Prelude.{◌≡◌, Ok, Err, if◌then◌else◌, false};
ghost use Rattle.std.specs.List.{list_any};
ghost use Rattle.std.specs.Str.{bytes_eq};
ghost use Rattle.asm.specs.declared.faults.Fault.{Fault};
ghost use Rattle.asm.specs.Names.{is_taken, line_of_name, no_names, number_at, number_known, source_known};
ghost use Rattle.asm.specs.Names.{with_interrupt_name, with_object_name, with_untyped_name};
ghost use Rattle.asm.specs.Outcomes.{Gives, Means};

use crate::faults::Fault;
use asm_line::Name;
use indexmap::{IndexMap, IndexSet};
use std::alloc::Global;
use std::marker::Model;

/// What a capability is made from.
#[derive(Clone, Copy)]
pub(crate) enum Source {
    /// The object with this number.
    Object(u32),
    /// The handler of the interrupt on this line.
    Handler { line: u32 },
}

/// The names that are declared so far. They share one name space; the positions of those of untypeds
/// and of objects are their numbers.
#[derive(Drop)]
pub(crate) struct Names<'a> {
    untypeds: IndexSet<&'a str>,
    objects: IndexSet<&'a str>,
    /// With the lines of the interrupts.
    interrupts: IndexMap<&'a str, u32>,
}

impl<'a> Model for Names<'a> {
    ghost use Rattle.std.specs.Prelude.{map};
    ghost use Rattle.asm.specs.Names.{KnownNames};

    ghost Value = { KnownNames };

    ghost view = { λ n. record {
      untypeds = map (λ k. k.now) n.untypeds.keys;
      objects = map (λ k. k.now) n.objects.keys;
      interrupts = map (λ e. (e.0.now, e.1)) n.interrupts.entries;
    } };
}

/// A position as a number. More names than there are numbers are refused as memory for them is: no section has as many
/// entries.
fn number_at(position: Option<usize>) -> Result<u32, Fault>
    ensures { Means result (λ number. number) (number_at position) }
{
    match position {
        Some(position) if position <= u32::MAX as usize => Ok(position as u32),
        Some(_) => Err(Fault::Memory),
        None => Err(Fault::UnknownName),
    }
}

impl<'a> Names<'a> {
    pub(crate) fn new(alloc: Global) -> Names<'a>
        ensures { result ≡ no_names }
    {
        Names {
            untypeds: IndexSet::new(alloc),
            objects: IndexSet::new(alloc),
            interrupts: IndexMap::new(alloc),
        }
    }

    /// The line of the interrupt with this name.
    fn line_of(&self, name: &str) -> Option<u32>
        ensures { result ≡ line_of_name self.now name.now }
    {
        self.interrupts.get(name).copied()
    }

    fn has_untyped(&self, name: &str) -> bool
        ensures { result ≡ list_any (bytes_eq name.now) self.now.untypeds }
    {
        self.untypeds.contains(name)
    }

    fn has_object(&self, name: &str) -> bool
        ensures { result ≡ list_any (bytes_eq name.now) self.now.objects }
    {
        self.objects.contains(name)
    }

    /// Whether something has this name.
    fn is_taken(&self, name: &str) -> bool
        ensures { result ≡ is_taken self.now name.now }
    {
        self.has_untyped(name) || self.has_object(name) || self.line_of(name).is_some()
    }

    /// Nothing may have this name yet.
    pub(crate) fn check_free(&self, name: &Name<'a>) -> Result<(), Fault>
        ensures { result ≡ (if is_taken self.now name.now then Err Fault.Duplicate else Ok tt) }
    {
        if self.is_taken(name.text()) {
            Err(Fault::Duplicate)
        } else {
            Ok(())
        }
    }

    pub(crate) fn add_untyped(&mut self, name: &Name<'a>) -> Result<(), Fault>
        ensures { is_taken self.old name.now ≡ false → Gives result (λ _. self.new ≡ with_untyped_name self.old name.now) }
    {
        self.untypeds.insert(name.text())?;
        Ok(())
    }

    pub(crate) fn add_object(&mut self, name: &Name<'a>) -> Result<(), Fault>
        ensures { is_taken self.old name.now ≡ false → Gives result (λ _. self.new ≡ with_object_name self.old name.now) }
    {
        self.objects.insert(name.text())?;
        Ok(())
    }

    pub(crate) fn add_interrupt(&mut self, name: &Name<'a>, line: u32) -> Result<(), Fault>
        ensures { is_taken self.old name.now ≡ false → Gives result (λ _. self.new ≡ with_interrupt_name self.old name.now line) }
    {
        self.interrupts.insert(name.text(), line)?;
        Ok(())
    }

    /// The number of the untyped with this name.
    pub(crate) fn untyped(&self, name: &Name<'a>) -> Result<u32, Fault>
        ensures { Means result (λ number. number) (number_known self.now.untypeds name.now) }
    {
        number_at(self.untypeds.get_index_of(name.text()))
    }

    /// The number of the object with this name.
    pub(crate) fn object(&self, name: &Name<'a>) -> Result<u32, Fault>
        ensures { Means result (λ number. number) (number_known self.now.objects name.now) }
    {
        number_at(self.objects.get_index_of(name.text()))
    }

    /// The object or the handler with this name.
    #[tactic(auto, unfolding(crate::specs::Names::source_known))]
    pub(crate) fn source(&self, name: &Name<'a>) -> Result<Source, Fault>
        ensures { Means result (λ source. source) (source_known self.now name.now) }
    {
        match self.line_of(name.text()) {
            Some(line) => Ok(Source::Handler { line }),
            None => Ok(Source::Object(self.object(name)?)),
        }
    }
}
