//! What the bytes of a record say. Each law is the contract of a function that does nothing.

ghost use Rattle.objects.specs.thread_records.Laws.{RecordStays, ZeroIsNew};

/// A thread is as it was, where no byte of its record changes.
pub fn a_record_stays()
    ensures { RecordStays }
{}

/// A record whose bytes are all zero is that of a new thread.
pub fn zero_is_a_new_thread()
    ensures { ZeroIsNew }
{}
