// The lines of the file of vectors.
ghost use Rattle.std.specs.Prelude.{◌≤◌, ◌<◌, length};

use script::words::line_end;

const LINE_END: u8 = b'\n';

const SPACE: u8 = b' ';

const COMMENT: u8 = b'#';

// Whether the line at a place is a vector's name, and no comment, empty line or line of a vector.
pub fn is_name(text: &[u8], at: usize) -> bool
    requires { at < length text.now }
{
    let first = text[at];
    first != COMMENT && first != LINE_END && first != SPACE
}

// The place behind the line at a place.
pub fn next_line(text: &[u8], at: usize) -> usize
    requires { at ≤ length text.now }
    ensures { (result ≤ length text.now) × (at < length text.now → at < result) }
{
    text.len().min(line_end(text, at) + 1)
}

// The line at a place, without its line end.
pub fn line(text: &[u8], at: usize) -> &[u8]
    requires { at ≤ length text.now }
{
    let end = line_end(text, at);
    &text[at..end]
}
