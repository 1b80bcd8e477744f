// The lines of a text (document 01, "Schedule text and report"), as places in the caller's bytes
// and as parts of them.
//
// `next_line` tells where the next line starts, `line_start` where the text after the first k lines does,
// `from` is the text from a place on, and `line` is line k without its LF. Each takes any bytes and any
// number, answers what the definitions in specs/Lines.antt give, and has no `requires`; nothing is
// copied. The laws that a reader of lines needs of them are in proofs/Parts.antt and Endings.antt.
#![tactic(auto)]

ghost use Rattle.std.specs.Prelude.{◌≡◌, ◌+◌, ◌-◌, ◌≤◌, length, drop};
ghost use Rattle.lines.specs.Lines.{line_length, after_line, after_lines, start_of, line_of};

// The byte that ends a line.
pub const LF: u8 = 10;

// Where the line that starts at `at` ends: the place of its LF, or the text's end if it has none.
fn line_end(text: &[u8], at: usize) -> usize
    requires start { at ≤ length text.now }
    ensures ended { result ≡ at + line_length (drop at text.now) }
    ensures within { result ≤ length text.now }
{
    let rest = &text[at..];
    at + rest.iter().position(|&b| b == LF).unwrap_or(rest.len())
}

// Where the line after the one that starts at `at` starts, or the text's end. So for a place past
// the end the answer is the text's length.
pub fn next_line(text: &[u8], at: usize) -> usize
    ensures next { result ≡ start_of text.now (after_line (drop at text.now)) }
{
    if text.len() < at {
        return text.len();
    }
    let end = line_end(text, at);
    if end < text.len() { end + 1 } else { end }
}

// The part of the text from `at` on, which is empty past the end.
pub fn from(text: &[u8], at: usize) -> &[u8]
    ensures part { result.now ≡ drop at text.now }
{
    text.get(at..).unwrap_or(&text[..0])
}

// Where the text after the first k lines starts. The search ends at the text's end: nothing is left
// after more lines than there are, whatever k is.
pub fn line_start(text: &[u8], k: usize) -> usize
    ensures start { result ≡ start_of text.now (after_lines k text.now) }
{
    let mut at: usize = 0;
    for _ in 0..k {
        if at == text.len() {
            break;
        }
        at = next_line(text, at);
    }
    at
}

// Line k without its LF, as a part of the caller's own bytes. Lines are counted from 1; line 0 and
// a line that isn't there are empty.
pub fn line(text: &[u8], k: usize) -> &[u8]
    ensures part { result.now ≡ line_of k text.now }
{
    if k == 0 {
        return &text[..0];
    }
    let start = line_start(text, k - 1);
    let end = line_end(text, start);
    &text[start..end]
}
