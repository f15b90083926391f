// Scripts: a list of calls as text, one to a line below four lines that say what memory to set aside, and the lines that answer them.
#![tactic(auto)]

ghost use Rattle.std.specs.Prelude.{◌≡◌, ◌++◌, MatchOption, IfOk, OnOk, Ok, Err, codes, decimal, string_bytes};
ghost use Rattle.terms.specs.Refusals.{refused_line};
ghost use Rattle.runs.specs.Account.{said};
ghost use Rattle.scripts.specs.Lines.{MemoryFits, ReadsLine, SameCall, answer_line, written_answer, as_text};
ghost use Rattle.lines.specs.Texts.{after_lines};
ghost use Rattle.scripts.specs.Setups.{ReadsKind, ReadsMemory, ReadsBoard, ReadsSetup};
ghost use Rattle.scripts.specs.Reading.{ReadsNumbers, ReadsCall, settle_call, label_call};
ghost use Rattle.runs.specs.declared.Request.TheVariants as request;

use labels::Label;
use lines::{after_line, first_line, first_number};
use runs::{Outcome, Request};
use std::alloc::{AllocError, Global};
use std::error::Error;
use std::fmt;
use terms::{Concept, Node, Refusal, Sentence, Sizes};

// The most cells, entries or words of memory that a script may ask for.
pub const MOST_MEMORY: u64 = 40_000_000;

// Which kind of label a script's book is in.
#[derive(Clone, Copy, PartialEq, Eq)]
pub enum LabelKind {
    Models,
    Grades,
    Whole,
}

// Which board a script's book is settled on: a dense one of so many cells, or a sparse one of a size and so many entries.
#[derive(Clone, Copy, PartialEq, Eq)]
pub enum BoardPlan {
    Dense(usize),
    Sparse(u32, usize),
}

// The memory that a script asks for.
#[derive(Clone, Copy, PartialEq, Eq)]
pub struct Setup {
    pub kind: LabelKind,
    pub cells: usize,
    pub board: BoardPlan,
    pub words: usize,
}

// A line of a script that is not as it should be, counted from 1.
#[derive(Clone, Copy, Debug, PartialEq, Eq)]
pub struct BadLine {
    pub number: usize,
}

impl fmt::Display for BadLine {
    ghost use Rattle.std.specs.Prelude.{Some};
    ghost use Rattle.scripts.specs.Lines.{bad_line};

    ghost output = { λ bad. Some (bad_line bad.number) };

    fn fmt<W: fmt::Write>(&self, f: &mut fmt::Formatter<W>) -> fmt::Result {
        write!(f, "bad line {}", self.number)
    }
}

impl Error for BadLine {}

// The memory that the first four lines of a script ask for, or the first of them that is missing or not as it should be.
pub fn setup_of(script: &[u8]) -> Result<Setup, BadLine>
    ensures { ReadsSetup script.now result }
{
    let second = after_line(script);
    let third = after_line(second);
    let fourth = after_line(third);
    let kind = kind_line(first_line(script)).ok_or(BadLine { number: 1 })?;
    let cells = memory_line(first_line(second), b"book").ok_or(BadLine { number: 2 })?;
    let board = board_line(first_line(third)).ok_or(BadLine { number: 3 })?;
    let words = memory_line(first_line(fourth), b"words").ok_or(BadLine { number: 4 })?;
    Ok(Setup {
        kind,
        cells,
        board,
        words,
    })
}

// The lines of a script below the first four.
pub fn calls_of(script: &[u8]) -> &[u8]
    ensures { result.now ≡ after_lines 4 script.now }
{
    after_line(after_line(after_line(after_line(script))))
}

// `kind models`, `kind grades` or `kind whole`.
fn kind_line(line: &[u8]) -> Option<LabelKind>
    ensures { ReadsKind line.now result }
{
    match line {
        b"kind models" => Some(LabelKind::Models),
        b"kind grades" => Some(LabelKind::Grades),
        b"kind whole" => Some(LabelKind::Whole),
        _ => None,
    }
}

// A word and the amount of memory after it.
fn memory_line(line: &[u8], word: &[u8]) -> Option<usize>
    ensures { ReadsMemory word.now line.now result }
{
    let [amount] = numbers::<1>(line, word)?;
    memory(amount)
}

// An amount of memory that may be asked for.
fn memory(amount: u64) -> Option<usize>
    ensures { MatchOption result (MemoryFits amount → ⊥) (λ n. (n ≡ amount) × MemoryFits n) }
{
    usize::try_from(amount)
        .ok()
        .filter(|_| amount <= MOST_MEMORY)
}

// `board dense CELLS` or `board sparse SIZE ENTRIES`. By hand: `or_else` would ask for one more function, and a definition of what it reads.
fn board_line(line: &[u8]) -> Option<BoardPlan>
    ensures { ReadsBoard line.now result }
{
    if let Some(cells) = memory_line(line, b"board dense") {
        return Some(BoardPlan::Dense(cells));
    }
    let [size, entries] = numbers::<2>(line, b"board sparse")?;
    let size = u32::try_from(size).ok()?;
    let entries = memory(entries)?;
    Some(BoardPlan::Sparse(size, entries))
}

// The call that a line is, with the number of a label in place of the label.
pub fn request_of(line: &[u8]) -> Option<Request<'_, u64>>
    ensures { ReadsLine line.now result }
{
    size_line(line)
        .or_else(|| enter_line(line))
        .or_else(|| withdraw_line(line))
        .or_else(|| write_line(line))
        .or_else(|| list_line(line))
        .or_else(|| settle_line(line))
        .or_else(|| label_line(line))
}

// `size CONCEPTS ROLES UNITS`.
fn size_line(line: &[u8]) -> Option<Request<'_, u64>>
    ensures { ReadsCall request.Size line.now result }
{
    let [concepts, roles, individuals] = numbers::<3>(line, b"size")?;
    Some(Request::Size(Sizes {
        concepts: u16::try_from(concepts).ok()?,
        roles: u16::try_from(roles).ok()?,
        individuals: u16::try_from(individuals).ok()?,
    }))
}

// `enter FORM FIRST SECOND ROLE THIRD LABEL`.
fn enter_line(line: &[u8]) -> Option<Request<'_, u64>>
    ensures { ReadsCall request.Enter line.now result }
{
    let [form, first, second, role, third, label] = numbers::<6>(line, b"enter")?;
    Some(Request::Enter(Sentence {
        form: u8::try_from(form).ok()?,
        first: u16::try_from(first).ok()?,
        second: u16::try_from(second).ok()?,
        role: u16::try_from(role).ok()?,
        third: u16::try_from(third).ok()?,
        label,
    }))
}

// `withdraw NUMBER`.
fn withdraw_line(line: &[u8]) -> Option<Request<'_, u64>>
    ensures { ReadsCall request.Withdraw line.now result }
{
    let [number] = numbers::<1>(line, b"withdraw")?;
    Some(Request::Withdraw(usize::try_from(number).ok()?))
}

// `write ROOM`. The closure stands here and below since the borrow checker does not cover a variant with a lifetime that is passed as a function.
fn write_line(line: &[u8]) -> Option<Request<'_, u64>>
    ensures { ReadsCall request.Write line.now result }
{
    memory_line(line, b"write").map(|room| Request::Write(room))
}

// `list ROOM`.
fn list_line(line: &[u8]) -> Option<Request<'_, u64>>
    ensures { ReadsCall request.List line.now result }
{
    memory_line(line, b"list").map(|room| Request::List(room))
}

// `settle`.
fn settle_line(line: &[u8]) -> Option<Request<'_, u64>>
    ensures { ReadsCall settle_call line.now result }
{
    (line == b"settle".as_slice()).then_some(Request::Settle)
}

// `label NODE CONCEPT`.
fn label_line(line: &[u8]) -> Option<Request<'_, u64>>
    ensures { ReadsCall label_call line.now result }
{
    let [node, concept] = numbers::<2>(line, b"label")?;
    let node = Node(u16::try_from(node).ok()?);
    let concept = Concept(u16::try_from(concept).ok()?);
    Some(Request::Label(node, concept))
}

// The numbers of a line that is a word and so many numbers, a space before each. The readers of a book's text do not serve: there a byte ends each
// number, and here a space begins it.
fn numbers<const N: usize>(line: &[u8], word: &[u8]) -> Option<[u64; N]>
    ensures { ReadsNumbers N word.now line.now result }
{
    let mut found = [0; N];
    let mut rest = line.strip_prefix(word)?;
    for slot in found.iter_mut() {
        let (number, after) = first_number(rest, u64::MAX)?;
        *slot = number;
        rest = after;
    }
    rest.is_empty().then_some(found)
}

// The same call with the label that has the number; none where no label of the kind has it. Variant by variant: the type of the label changes, so
// that no arm can hand the request on as it is.
pub fn labelled<'a, L: Label>(request: &Request<'a, u64>) -> Option<Request<'a, L>>
    ensures { SameCall L.Label.kind request.now result }
{
    Some(match request {
        Request::Size(sizes) => Request::Size(*sizes),
        Request::Enter(sentence) => {
            let label = L::from_number(sentence.label)?;
            Request::Enter(sentence.with_label(label))
        }
        Request::Withdraw(number) => Request::Withdraw(*number),
        Request::Read(text) => Request::Read(text),
        Request::Write(room) => Request::Write(*room),
        Request::Settle => Request::Settle,
        Request::Label(node, concept) => Request::Label(*node, *concept),
        Request::List(room) => Request::List(*room),
    })
}

// The line that answers a call, and below it what the call wrote.
pub fn answer<L: Label>(heap: Global, outcome: &Outcome<L>) -> Result<String, AllocError>
    ensures { IfOk result (λ s. string_bytes s ≡ answer_line L.Label.kind (said outcome.now)) }
{
    match outcome {
        Outcome::Done(Ok(())) | Outcome::Read(Ok(())) => String::from_str(heap, "ok"),
        Outcome::Done(Err(refusal)) | Outcome::Label(Err(refusal)) => refusal.to_string(heap),
        Outcome::Read(Err(misread)) => misread.to_string(heap),
        Outcome::Label(Ok(label)) => format!(in heap; "ok {}", label.number()),
        Outcome::Bytes(Ok(count), memory) => written(heap, *count, memory),
        Outcome::Bytes(Err(refusal), memory) => short(heap, *refusal, memory),
    }
}

// The answer to a call that wrote: how much, and below it what was written.
fn written(heap: Global, count: usize, memory: &[u8]) -> Result<String, AllocError>
    ensures { IfOk result (λ s. string_bytes s ≡ written_answer (Ok count) memory.now) }
{
    let mut text = format!(in heap; "ok {count}\n")?;
    push_bytes(&mut text, &memory[..count.min(memory.len())])?;
    Ok(text)
}

// The answer to a call that could not write all: the refusal, and below it the first bytes that fit.
fn short(heap: Global, refusal: Refusal, memory: &[u8]) -> Result<String, AllocError>
    ensures { IfOk result (λ s. string_bytes s ≡ written_answer (Err refusal) memory.now) }
{
    let mut text = refusal.to_string(heap)?;
    if refusal == Refusal::MemoryTooShort {
        text.push('\n')?;
        push_bytes(&mut text, memory)?;
    }
    Ok(text)
}

// Adds bytes to a text, as characters of those numbers.
fn push_bytes(text: &mut String, bytes: &[u8]) -> Result<(), AllocError>
    ensures { OnOk result (string_bytes text.new ≡ string_bytes text.old ++ as_text bytes.now) }
{
    text.extend(bytes.iter().map(|byte| char::from(*byte)))
}

// The line that tells a refusal.
pub fn refused(heap: Global, refusal: Refusal) -> Result<String, AllocError>
    ensures { IfOk result (λ s. string_bytes s ≡ refused_line refusal) }
{
    format!(in heap; "{refusal}")
}

// The line that tells of a line that is no call, counted from 1.
pub fn bad_line(heap: Global, number: usize) -> Result<String, AllocError>
    ensures { IfOk result (λ s. string_bytes s ≡ codes "bad line " ++ decimal number) }
{
    let bad = BadLine { number };
    format!(in heap; "{bad}")
}
