// Lines of text as fields, and fields as decimal numbers or hexadecimal words. Nothing here allocates.
#![tactic(auto)]

pub mod fault;
pub mod fields;
pub mod line;
pub mod listing;
pub mod number;
