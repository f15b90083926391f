// Reads a list of calls from standard input, makes them on a book and a board made now, and prints what each answers.
#![tactic(auto)]

use sessions::answers;
use std::io;
use std::io::{Read, Write};

fn main(rt: HostRuntime) -> io::Result<()> {
    let mut script = Vec::new(rt.alloc());
    rt.stdin().read_to_end(&mut script)?;
    // By hand, as in `trials`: one function for both would take a heap and a writer, and need a contract where now neither has one.
    match answers(rt.alloc(), &script) {
        Ok(text) => rt.write_all(text.as_bytes()),
        Err(_) => rt.write_all(b"no memory\n"),
    }
}
