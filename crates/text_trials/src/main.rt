// Answers each text that is named on the command line, under its name, as the program does whose name stands before it.
#![tactic(auto)]

ghost use Rattle.responding.specs.Room.{ArraysFit};

use labels::{Grade, Label, Model};
use responding::{INPUT_ROOM, OUTPUT_ROOM, answer, read_input};
use std::fs::File;
use std::io::Write;
use std::rt::Files;
use std::{env, io};

// A program that a text is answered as.
#[derive(Clone, Copy)]
enum Program {
    Models,
    Grades,
}

fn main(rt: HostRuntime) -> anyhow::Result<()> {
    let mut program = Program::Models;
    for word in env::args(&rt)?.skip(1) {
        match (word.as_str(), program) {
            ("models", _) => program = Program::Models,
            ("grades", _) => program = Program::Grades,
            (path, Program::Models) => answer_one::<Model>(&rt, path)?,
            (path, Program::Grades) => answer_one::<Grade>(&rt, path)?,
        }
    }
    Ok(())
}

// Answers one text under its name. By hand, and not by `print_answer`: of a text that cannot be read no name is printed, and of one that can it is printed
// before the text is settled, which may take long.
fn answer_one<L: Label>(rt: &(impl Files + Print), path: &str) -> anyhow::Result<()>
    requires { ArraysFit L.row }
{
    let mut input = [0; INPUT_ROOM + 1];
    let mut output = [0; OUTPUT_ROOM];
    let count = read_input(&mut File::open(rt, path)?, &mut input)?;
    println!(rt; "{path}:")?;
    let count = answer::<L, _>(&mut &input[..count], &mut output)?;
    Ok(io::writer(rt).write_all(&output[..count])?)
}
