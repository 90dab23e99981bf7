//! The form of a month file, which its reader and its writer share: the keys of its lines, one of its first lines (`head`), and the rows
//! of one kind of line (`row`) and of one table (`table`), counted, stored, measured and written. `specs/Form.antt` has the form as a
//! list of keys and a table of kinds, each with what reads and writes its lines; `Reading` has what a text of a form holds or its first
//! refusal, `Writing` the text of what it holds. That each is the other's way back is proved here for every form whose keys differ; the
//! calls are in the crates above.
#![tactic(auto)]

pub mod head;
pub mod keys;
pub mod row;
pub mod table;
