//! What is promised of month files and of the two calls over them, `fileread::read` and `filewrite::write`: a file that is read and
//! written again is the same file, what is written is read again, and each call refuses for its reasons and no other. There is no code
//! here; `specs/Refused.antt` has why a call refuses, and the promises are `proofs/Promises.antt`.
#![tactic(auto)]
