//! Queues of threads linked in both directions. Laws on what changes of links make of queues as lists; each law
//! is the contract of a function that does nothing.

mod queue_laws;

pub use queue_laws::{
    a_first_thread_is_dropped, leaving_takes_out, only_links_of_queues_count, pushing_joins,
    whoever_is_named_stands_there, without_an_owner_is_in_no_queue,
};
