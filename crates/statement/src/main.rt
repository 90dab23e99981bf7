//! The statement program: a month file on standard input, its statement on standard output. A read or a write that fails is said on
//! standard error, and no `refuse=` line blames the file for it.
#![tactic(auto)]

use statement_text::{MOST_ASKED, MOST_SHOWN};

mod input;

// Says what failed. Where even that can't be said, nobody is there to hear it.
fn say(rt: &HostRuntime, failed: &str) {
    let _ = rt.eprintln(failed);
}

fn main(rt: HostRuntime) {
    let mut text = [0u8; MOST_ASKED];
    let mut out = [0u8; MOST_SHOWN];
    let Ok(count) = input::read_all(&mut rt.stdin(), &mut text) else {
        say(&rt, "statement: standard input can't be read");
        return;
    };
    let length = statement_text::state_file(&text, count, &mut out);
    if rt.write_all(&out[..length]).is_err() {
        say(&rt, "statement: standard output can't be written");
    }
}
