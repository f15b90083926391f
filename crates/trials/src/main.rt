// Answers each script that is named on the command line, under its name.
#![tactic(auto)]

use sessions::answers;
use std::io::Write;
use std::rt::Files;
use std::{env, fs};

fn main(rt: HostRuntime) -> anyhow::Result<()> {
    for path in env::args(&rt)?.skip(1) {
        answer_one(&rt, path.as_str())?;
    }
    Ok(())
}

// Answers one script under its name. By hand, as in `calls`: one function for both would take a heap and a writer, and need a contract where now
// neither has one.
fn answer_one(rt: &(impl AllocGlobal + Files + Print), path: &str) -> anyhow::Result<()> {
    let script = fs::read(rt, path)?;
    println!(rt; "{path}:")?;
    match answers(rt.alloc(), script.as_slice()) {
        Ok(text) => rt.write_all(text.as_bytes())?,
        Err(_) => rt.write_all(b"no memory\n")?,
    }
    Ok(())
}
