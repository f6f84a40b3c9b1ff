// Transfers in one call: send moves memory to the wire, receive moves the wire to memory.

#![tactic(auto)]

mod receive_call;
mod rules;
mod send_call;

pub use receive_call::receive;
pub use rules::receive_rule;
pub use send_call::send;

// The input bytes that an accepted call took and the output bytes that it wrote, fields included.
#[derive(Clone, Copy, Debug, PartialEq, Eq)]
pub struct Totals {
    pub taken: u64,
    pub written: u64,
}
