//! What an image file holds, as lists: the numbers of its head and one list for each section. The
//! counts that a file gives are the lengths of the lists.

use model::{
    CapabilityEntry, FrameEntry, InterruptEntry, ObjectEntry, PromisedWord, RangeEntry,
    RegisterEntry, SlotEntry, TableEntry, TermEntry, UntypedEntry,
};
use std::marker::Model;

/// What a certificate says of one point.
#[derive(Drop)]
pub struct RecordParts {
    /// The number of the point, from 0.
    pub point: u32,
    /// The constant of the measure.
    pub constant: i64,
    /// In rising order of their registers.
    pub ranges: Vec<RangeEntry>,
    /// In rising order of CNode and index.
    pub slots: Vec<SlotEntry>,
    /// In rising order of their registers.
    pub terms: Vec<TermEntry>,
}

impl Model for RecordParts {
    ghost use Rattle.std.specs.Prelude.{length};
    ghost use Rattle.model.specs.Images.Image.{StateRecord};

    ghost Value = { StateRecord };

    ghost view = { λ r. record {
      header = record {
        point = r.point;
        ranges = length r.ranges.items;
        slots = length r.slots.items;
        terms = length r.terms.items;
        constant = r.constant;
      };
      ranges = r.ranges.items;
      slots = r.slots.items;
      terms = r.terms.items;
    } };
}

/// A thread: its objects, how it starts, its program and the certificate of its program.
#[derive(Drop)]
pub struct ThreadParts {
    pub tcb: u32,
    /// The CNode object at the root of its capability space, and that capability's guard word.
    pub cnode: u32,
    pub guard: u32,
    /// The root table object of its address space.
    pub root: u32,
    /// 0 to 255; the greatest runs first.
    pub priority: u32,
    /// How many instructions it runs at most from one wait to the next.
    pub budget: u64,
    /// The capability address of its fault handler, or 0 for none.
    pub fault: u32,
    /// The frame object of its message buffer, or `u32::MAX` for none, as in versions 1 and 2.
    pub buffer: u32,
    /// The point that it starts at.
    pub entry: u32,
    /// The virtual address of the first word of its program.
    pub base: u32,
    /// In rising order of their registers.
    pub registers: Vec<RegisterEntry>,
    /// The program.
    pub words: Vec<u32>,
    /// The certificate, in rising order of its points.
    pub records: Vec<RecordParts>,
}

impl Model for ThreadParts {
    ghost use Rattle.std.specs.Prelude.{length};
    ghost use Rattle.model.specs.Images.Image.{Thread};

    ghost Value = { Thread };

    ghost view = { λ t. record {
      header = record {
        tcb = t.tcb;
        cnode = t.cnode;
        guard = t.guard;
        root = t.root;
        priority = t.priority;
        budget = t.budget;
        fault = t.fault;
        buffer = t.buffer;
        entry = t.entry;
        base = t.base;
        registers = length t.registers.items;
        words = length t.words.items;
        records = length t.records.items;
      };
      registers = t.registers.items;
      words = t.words.items;
      records = t.records.items;
    } };
}

/// A frame object and the words that it begins with.
#[derive(Drop)]
pub struct Content {
    pub frame: u32,
    pub words: Vec<u32>,
}

impl Model for Content {
    ghost use Rattle.std.specs.Prelude.{length};
    ghost use Rattle.model.specs.Images.Image.{ImageContent};

    ghost Value = { ImageContent };

    ghost view = { λ c. record { header = record { frame = c.frame; words = length c.words.items }; words = c.words.items } };
}

/// What every message to an endpoint keeps: the range of its badge, and those of its first words.
#[derive(Drop)]
pub struct Promise {
    /// The endpoint object.
    pub endpoint: u32,
    pub badge_low: u32,
    pub badge_high: u32,
    pub words: Vec<PromisedWord>,
}

impl Model for Promise {
    ghost use Rattle.std.specs.Prelude.{length};
    ghost use Rattle.model.specs.Images.Image.{ImagePromise};

    ghost Value = { ImagePromise };

    ghost view = { λ p. record {
      header = record { endpoint = p.endpoint; badge_low = p.badge_low; badge_high = p.badge_high; words = length p.words.items };
      words = p.words.items;
    } };
}

/// What an image file holds: the numbers of its head and a list for each section.
#[derive(Drop)]
pub struct Parts {
    pub version: u32,
    /// Physical memory has `2^memory_bits` bytes.
    pub memory_bits: u32,
    /// The boot CNode has `2^boot_radix` slots.
    pub boot_radix: u32,
    pub untypeds: Vec<UntypedEntry>,
    pub objects: Vec<ObjectEntry>,
    pub capabilities: Vec<CapabilityEntry>,
    pub interrupts: Vec<InterruptEntry>,
    pub tables: Vec<TableEntry>,
    pub frames: Vec<FrameEntry>,
    pub contents: Vec<Content>,
    /// None in version 1.
    pub promises: Vec<Promise>,
    pub threads: Vec<ThreadParts>,
}

impl Model for Parts {
    ghost use Rattle.std.specs.Prelude.{length};
    ghost use Rattle.model.specs.Images.Image.{Image};

    ghost Value = { Image };

    ghost view = { λ p. record {
      header = record {
        version = p.version;
        memory_bits = p.memory_bits;
        boot_radix = p.boot_radix;
        untypeds = length p.untypeds.items;
        objects = length p.objects.items;
        capabilities = length p.capabilities.items;
        interrupts = length p.interrupts.items;
        tables = length p.tables.items;
        frames = length p.frames.items;
        contents = length p.contents.items;
        promises = length p.promises.items;
        threads = length p.threads.items;
      };
      untypeds = p.untypeds.items;
      objects = p.objects.items;
      capabilities = p.capabilities.items;
      interrupts = p.interrupts.items;
      tables = p.tables.items;
      frames = p.frames.items;
      contents = p.contents.items;
      promises = p.promises.items;
      threads = p.threads.items;
    } };
}
