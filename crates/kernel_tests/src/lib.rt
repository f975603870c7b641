//! Tests on the public calls of the machine, of the store of capability slots, and of the kernel.
#![tactic(auto)]

#[cfg(test)]
mod kernel_calls;
#[cfg(test)]
mod machine;
#[cfg(test)]
mod store;
