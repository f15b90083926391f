// Reads the text of a book in grade labels from standard input, and prints the listing of its settled labels, or why there is none.
// Beside `models`, and no one program for both: each is this one call, and only the label that it names differs.
#![tactic(auto)]

use labels::Grade;
use responding::print_answer;
use std::io;

fn main(rt: HostRuntime) -> io::Result<()> {
    print_answer::<Grade, _, _>(&mut rt.stdin(), &mut io::writer(&rt))
}
