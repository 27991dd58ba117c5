//! The dictionary of an input, and the lines of messages behind it.
ghost use Rattle.std.specs.Prelude.{◌≡◌, ◌<◌, ◌≤◌, ◌∷◌, [], length, drop, take, IfSome, IfNone};
ghost use Rattle.dm_tool.specs.Divided.{whole_lines, is_divider, dictionary_part, message_part};

use dm_text::{Lines, first_line_feed, trim_spaces};

/// An input that begins with a dictionary.
#[derive(Drop)]
pub struct Divided<'a> {
    /// The octets before the first line `%%`; all where there is no such line.
    pub dictionary: &'a [u8],
    /// The octets behind that line.
    pub messages: &'a [u8],
}

/// Divides an input at its first line `%%`; where there is none, at its end: then all is dictionary.
pub fn divide_at_divider_or_end(input: &[u8]) -> Divided<'_>
    ensures dictionary { result.dictionary.now ≡ dictionary_part input.now }
    ensures messages { result.messages.now ≡ message_part input.now }
{
    let mut size = 0;
    'lines: while let Some(end) = first_line_len_or_rest(&input[size..]) {
        let next = size + end;
        if is_divider(&input[size..next]) {
            return Divided {
                dictionary: &input[..size],
                messages: &input[next..],
            };
        }
        size = next;
    }
    Divided {
        dictionary: input,
        messages: &[],
    }
}

/// How many octets the first line has, with the LF that ends it; all where no LF is, None where there is no octet.
fn first_line_len_or_rest(input: &[u8]) -> Option<usize>
    ensures some { IfSome result (λ end. whole_lines input.now
        ≡ take end input.now ∷ whole_lines (drop end input.now)) }
    ensures within { IfSome result (λ end. end ≤ length input.now) }
    ensures moves { IfSome result (λ end. 0 < end) }
    ensures none { IfNone result (input.now ≡ []) }
{
    if input.is_empty() {
        return None;
    }
    match first_line_feed(input) {
        Some(at) => Some(at + 1),
        None => Some(input.len()),
    }
}

/// Whether a line is `%%`, spaces at its ends aside.
fn is_divider(line: &[u8]) -> bool
    ensures { result ≡ is_divider line.now }
{
    match Lines::new(line).next() {
        Some(line) => trim_spaces(line) == b"%%".as_slice(),
        None => false,
    }
}
