//! What each account is charged and uses in a month, and what each owner is credited, in columns: a word for each account or owner,
//! in the order of its table. `accounts` has the network charges and the use, `network` the network credits, with every division in
//! its turn; the services are the crate `services`, firm service is the crate `firm`. A part takes the tables of a month that is
//! already judged. `specs/` says each charge and each credit in the paper's words, the services' too and not the firm ones.
#![tactic(auto)]

pub mod accounts;
pub mod network;
