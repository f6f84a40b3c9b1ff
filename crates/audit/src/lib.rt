// This crate has no code: its specs say what the contracts imply, in the words of the customer's order.

#![tactic(auto)]
