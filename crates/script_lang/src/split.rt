//! The lines of a text, taken one after another.
//!
//! A line ends with its newline, and the last line may lack it.
ghost use Rattle.std.specs.Prelude.{◌≡◌, ◌==◌, ◌<◌, ◌∷◌, length, nat_lt, IfSome};
ghost use Rattle.std.specs.List.{position};
ghost use Rattle.script_lang.specs.Scripts.{lines_of, is_passed};

/// The first line, without its newline, and the text behind it.
#[tactic(auto, using(crate::proofs::Breaks::lines_at_newline, crate::proofs::Breaks::lines_without_newline))]
pub(crate) fn first_line(text: &[u8]) -> (&[u8], &[u8])
    requires { 0 < length text.now }
    ensures lines { lines_of text.now ≡ result.0.now ∷ lines_of result.1.now }
    ensures shorter { length result.1.now < length text.now }
{
    match first_newline(text) {
        Some(at) => (&text[..at], &text[at + 1..]),
        None => (text, &[]),
    }
}

/// Whether the text has more lines than this.
#[tactic(auto, using(crate::proofs::Breaks::lines_some))]
pub(crate) fn has_more_lines(text: &[u8], limit: usize) -> bool
    ensures { result ≡ nat_lt limit (length (lines_of text.now)) }
{
    let mut count = 0usize;
    let mut rest = text;
    while !rest.is_empty() {
        if count == limit {
            return true;
        }
        let (_, others) = first_line(rest);
        rest = others;
        count += 1;
    }
    false
}

/// Whether the line is passed over: a blank one, or a comment.
pub(crate) fn is_passed(line: &[u8]) -> bool
    ensures { result ≡ is_passed line.now }
{
    match line {
        [] => true,
        [first, ..] => *first == b'#',
    }
}

// Where the first newline stands.
fn first_newline(text: &[u8]) -> Option<usize>
    ensures place { result ≡ position (λ b. b == 0x0a) text.now }
    ensures inside { IfSome result (λ at. at < length text.now) }
{
    text.iter().position(is_newline)
}

fn is_newline(byte: &u8) -> bool
    ensures { result ≡ (byte.now == 0x0a) }
{
    *byte == b'\n'
}
