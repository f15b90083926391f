// Sessions: a whole script answered. The memory that it asks for is set aside, its calls are made, and each line gets its answer.
#![tactic(auto)]

ghost use Rattle.std.specs.Prelude.{◌≡◌, map, length, IfOk, string_bytes};
ghost use Rattle.runs.specs.Account.{said};
ghost use Rattle.runs.specs.Law.{memory};
ghost use Rattle.sessions.specs.Answered.{Answered, AnswersIn};
ghost use Rattle.sessions.specs.Noted.{Notes, Noted, calls_among, unmade_line, told_lines, AnswersFrom};

use boards::{Board, Dense, Entry, Sparse};
use labels::{Grade, Label, Model, Whole};
use lines::split_line;
use runs::{Outcome, Request, perform};
use scripts::{
    BoardPlan, LabelKind, Setup, answer, bad_line, calls_of, labelled, refused, request_of,
    setup_of,
};
use std::alloc::{AllocError, Global};
use terms::{Refusal, Sentence};

// Why a line below the first four makes no call. It holds no line's number, which the place among the replies tells: so a reply takes two bytes.
#[derive(Clone, Copy, Debug)]
enum Unmade {
    NoSuchLabel,
    BadLine,
}

// The calls among the lines, and how each line is answered: by the outcome of the next call, or by why it makes none.
// Two lists, since `perform` takes the calls as one slice.
#[derive(Drop)]
struct Notebook<'a, L> {
    requests: Vec<Request<'a, L>>,
    replies: Vec<Result<(), Unmade>>,
}

// The lines of a text, each without its line feed.
// By hand: std's `split` gives one more piece after a last line feed, and what the check itself writes of a loop over `split_inclusive` it then refuses.
#[derive(Drop)]
struct Lines<'a> {
    rest: &'a [u8],
}

impl<'a> Iterator for Lines<'a> {
    ghost use Rattle.std.specs.Prelude.{length};
    ghost use Rattle.std.specs.Iterator.{at_most};
    ghost use Rattle.sessions.specs.Noted.{NextLine};

    type Item = &'a [u8];

    ghost next_gives = { λ before line after. NextLine before.rest.now line after.rest.now };

    ghost remaining = { λ lines. at_most (length lines.rest.now) };

    fn next(&mut self) -> Option<&'a [u8]> {
        if self.rest.is_empty() {
            return None;
        }
        let (line, rest) = split_line(self.rest);
        self.rest = rest;
        Some(line)
    }
}

// The answers to a script, a line each.
pub fn answers(heap: Global, script: &[u8]) -> Result<String, AllocError>
    ensures { IfOk result (λ s. Answered script.now (string_bytes s)) }
{
    let calls = calls_of(script);
    match setup_of(script) {
        Err(bad) => format!(in heap; "{bad}\n"),
        Ok(setup) => match setup.kind {
            LabelKind::Models => on_board::<Model>(heap, setup, calls),
            LabelKind::Grades => on_board::<Grade>(heap, setup, calls),
            LabelKind::Whole => on_board::<Whole>(heap, setup, calls),
        },
    }
}

// Sets the memory aside that a script asks for, and makes its calls there.
fn on_board<L: Label>(heap: Global, setup: Setup, calls: &[u8]) -> Result<String, AllocError>
    ensures { IfOk result (λ s. AnswersIn L.Label.kind setup calls.now (string_bytes s)) }
{
    let mut cells = vec![in heap; Sentence::<L>::blank(); setup.cells]?;
    match setup.board {
        BoardPlan::Dense(count) => {
            let mut labels = vec![in heap; L::none(); count]?;
            let mut board = Dense::new(&mut labels);
            answered(heap, &mut cells, &mut board, calls)
        }
        BoardPlan::Sparse(size, count) => {
            let mut entries = vec![in heap; Entry::<L>::blank(); count]?;
            let mut board = Sparse::new(&mut entries, size);
            answered(heap, &mut cells, &mut board, calls)
        }
    }
}

// Makes the calls of the lines, and answers each line.
fn answered<L: Label, B: Board<L>>(
    heap: Global,
    cells: &mut [Sentence<L>],
    board: &mut B,
    lines: &[u8],
) -> Result<String, AllocError>
    ensures { IfOk result (λ s. AnswersFrom L.Label.kind (memory cells.old (B.Board.meaning board.old)) lines.now (string_bytes s)) }
{
    let Notebook { requests, replies } = take_lines(heap, lines)?;
    let log = perform(cells, board, &requests, heap)?;
    told(heap, &replies, &log)
}

// Notes the lines.
fn take_lines<'a, L: Label>(heap: Global, lines: &'a [u8]) -> Result<Notebook<'a, L>, AllocError>
    ensures { IfOk result (λ notebook. Noted L.Label.kind lines.now notebook.replies.items notebook.requests.items) }
{
    let mut requests = Vec::new(heap);
    let mut replies = Vec::new(heap);
    for line in (Lines { rest: lines }) {
        match take_line(line) {
            Ok(request) => {
                requests.push(request)?;
                replies.push(Ok(()))?;
            }
            Err(why) => replies.push(Err(why))?,
        }
    }
    Ok(Notebook { requests, replies })
}

// The call that a line is, or why it makes none.
fn take_line<'a, L: Label>(line: &'a [u8]) -> Result<Request<'a, L>, Unmade>
    ensures { Notes L.Label.kind line.now result }
{
    let request = request_of(line).ok_or(Unmade::BadLine)?;
    labelled(&request).ok_or(Unmade::NoSuchLabel)
}

// The answers, a line each, in the order of the lines, the first of which is line 5 of the script.
fn told<L: Label>(
    heap: Global,
    replies: &[Result<(), Unmade>],
    log: &[Outcome<L>],
) -> Result<String, AllocError>
    requires { calls_among replies.now ≡ length log.now }
    ensures { IfOk result (λ s. string_bytes s ≡ told_lines L.Label.kind 5 replies.now (map said log.now)) }
{
    let mut text = String::new(heap);
    let mut outcomes = log.iter();
    for (at, reply) in replies.iter().enumerate() {
        let line = match reply {
            Ok(()) => answer(heap, outcomes.next().unwrap())?,
            Err(why) => unmade_reason(heap, *why, at + 5)?,
        };
        text.push_str(line.as_str())?;
        text.push('\n')?;
    }
    Ok(text)
}

// The line that tells why the line of this number makes no call.
fn unmade_reason(heap: Global, why: Unmade, number: usize) -> Result<String, AllocError>
    ensures { IfOk result (λ s. string_bytes s ≡ unmade_line number why) }
{
    match why {
        Unmade::NoSuchLabel => refused(heap, Refusal::NoSuchLabel),
        Unmade::BadLine => bad_line(heap, number),
    }
}
