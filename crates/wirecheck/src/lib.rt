// What difcheck does (01, "The small program"): it checks the fields of a wire, received in packets of at most 4,168
// bytes.

#![tactic(auto)]

mod check;
mod setup;

pub use check::check_wire;
