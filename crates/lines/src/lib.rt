// Lines: a text in bytes, line by line and number by number.
#![tactic(auto)]

ghost use Rattle.std.specs.Prelude.{◌≡◌, ◌+◌, ◌<◌, ◌∷◌, length, Decides, MatchOption, slice_index};
ghost use Rattle.lines.specs.Texts.{FirstAt, SetOff, first_line, after_line, LineAndRest};
ghost use Rattle.lines.specs.Numbers.{Digit, PastDigits, NumberAt, ReadsFirst};

// Where a byte first stands in a text, or the text's end.
fn find(text: &[u8], sought: u8) -> usize
    ensures { FirstAt sought text.now result }
{
    text.iter()
        .position(|byte| *byte == sought)
        .unwrap_or(text.len())
}

// The first line of a text, without its line feed, and the text after it.
pub fn split_line(text: &[u8]) -> (&[u8], &[u8])
    ensures line { result.0.now ≡ first_line text.now }
    ensures rest { result.1.now ≡ after_line text.now }
    ensures whole { LineAndRest text.now result.0.now result.1.now }
{
    let (line, rest) = text.split_at(find(text, b'\n'));
    (line, rest.strip_prefix(b"\n").unwrap_or(rest))
}

// The text after its first line.
pub fn after_line(text: &[u8]) -> &[u8]
    ensures rest { result.now ≡ after_line text.now }
    ensures shorter { 0 < length text.now → length result.now < length text.now }
{
    split_line(text).1
}

// The first line of a text, without its line feed.
pub fn first_line(text: &[u8]) -> &[u8]
    ensures line { result.now ≡ first_line text.now }
    ensures whole { LineAndRest text.now result.now (after_line text.now) }
{
    split_line(text).0
}

// The number after a space at the start of a text, up to a limit, and the rest of the text from the next space on.
pub fn first_number(text: &[u8], most: u64) -> Option<(u64, &[u8])>
    ensures { ReadsFirst most text.now result }
{
    let field = text.strip_prefix(b" ")?;
    let (value, rest) = number_at(field, most)?;
    is_set_off(rest).then_some((value, rest))
}

// Whether a text is empty or begins with a space.
fn is_set_off(text: &[u8]) -> bool
    ensures { Decides result (SetOff 32 text.now) }
{
    text.first().is_none_or(|first| *first == b' ')
}

// The number at the start of a text, up to a limit and with no leading zero, and the text after its digits. Nothing is read past the first digit that
// takes the value above 64 bits, nor past a leading zero, so that a long run of digits costs no more than a short one.
pub fn number_at(text: &[u8], most: u64) -> Option<(u64, &[u8])>
    ensures { NumberAt most text.now result }
{
    if has_leading_zero(text) {
        return None;
    }
    let mut value = 0u64;
    let mut rest = text;
    while let Some((digit, more)) = first_digit(rest) {
        value = value.checked_mul(10)?.checked_add(digit)?;
        rest = more;
    }
    (rest.len() < text.len() && value <= most).then_some((value, rest))
}

// Whether a text begins with a zero and a digit after it.
fn has_leading_zero(text: &[u8]) -> bool
    ensures { Decides result ((1 < length text.now) × (slice_index text.now 0 ≡ 48) × Digit (slice_index text.now 1)) }
{
    matches!(text, [b'0', b'0'..=b'9', ..])
}

// The digit at the start of a text, and the text after it.
fn first_digit(text: &[u8]) -> Option<(u64, &[u8])>
    ensures { MatchOption result (PastDigits text.now) (λ p. Digit (p.0 + 48) × (text.now ≡ (p.0 + 48) ∷ p.1.now)) }
{
    match text {
        [digit @ b'0'..=b'9', rest @ ..] => Some((u64::from(*digit - b'0'), rest)),
        _ => None,
    }
}
