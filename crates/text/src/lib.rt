//! Decimal numbers and lines of key=value, read and written; nothing here knows a month. A function that reads is handed a text
//! and an offset in it and answers the offset behind what it read, or none where it doesn't fit; one that writes is handed lent
//! bytes and a place in them and answers the place behind what it wrote. A `Reader` holds a text and an offset, and steps from one
//! line to the next. `specs/` says what a number and a line are, `proofs/` that each reads as it is written and only so.
#![tactic(auto)]

pub mod line;
pub mod number;
pub mod reader;
