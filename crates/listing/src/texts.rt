// The lines of a text.
ghost use Rattle.std.specs.Prelude.{◌≡◌, ◌+◌, ◌≤◌, ◌∷◌, length};
ghost use Rattle.listing.specs.Lines.{blank, lines_of, lines_left, size_left};

pub mod walking;

// The lines that are left of a text, the first of which has this number.
#[derive(Drop)]
pub struct Lines<'a> {
    number: u32,
    rest: Option<&'a [u8]>,
    ghost counted: { 1 ≤ number },
    ghost fits: { number + size_left rest ≤ 16386 },
}

// The first line of a text, and the text after its end, if the line has one.
pub fn first_line(text: &[u8]) -> (&[u8], Option<&[u8]>)
    ensures parts_the_text { lines_of text.now ≡ result.0.now ∷ lines_left result.1 }
    ensures leaves_less { size_left result.1 ≤ length text.now }
{
    match text.iter().position(|byte| *byte == b'\n') {
        Some(end) => (&text[..end], Some(&text[end + 1..])),
        None => (text, None),
    }
}

// Whether a line has spaces alone.
pub fn is_blank(line: &[u8]) -> bool
    ensures tells_blank_lines { result ≡ blank line.now }
{
    line.iter().all(|byte| *byte == b' ')
}
