// The lines of a text, and the words of a line: runs of bytes that are no blanks. A line ends before its comment.
ghost use Rattle.std.specs.Prelude.{◌≡◌, Bool, true, not, ℕ, ◌≤◌, length};
ghost use Rattle.pages.specs.Same.{sameb};
ghost use Rattle.script.specs.Line.{blankb, plainb, insideb, run, Ends, WordAt, words_in};

const SPACE: u8 = b' ';

const TAB: u8 = b'\t';

const RETURN: u8 = b'\r';

const COMMENT: u8 = b'#';

const LINE_END: u8 = b'\n';

// Whether a byte stands between words.
pub fn is_blank(byte: u8) -> bool
    ensures { result ≡ blankb byte }
{
    matches!(byte, SPACE | TAB | RETURN)
}

// Where `stops` first answers true, or the text ends: where the run of bytes ends that a test p says, if `stops` says the others.
pub fn end_of<F: Fn(u8) -> bool>(text: &[u8], stops: F) -> usize
    requires { F.IsAlwaysCallable stops }
    ensures within { result ≤ length text.now }
    ensures run { (p : ℕ → Bool) → ((byte : ℕ) (b : Bool) → F.post stops byte b → b ≡ not (p byte)) → result ≡ run p text.now }
{
    match text.iter().position(|byte| stops(*byte)) {
        Some(k) => k,
        None => text.len(),
    }
}

// The first word of a line, of no bytes where there is none, and what stands behind it.
pub fn next_word(line: &[u8]) -> (&[u8], &[u8])
    ensures { WordAt line.now result.0.now result.1.now }
{
    let line = &line[end_of(line, |byte| !is_blank(byte))..];
    line.split_at(end_of(line, is_blank))
}

// How many words start in a line behind a blank, or at its start.
pub fn count_words(line: &[u8]) -> usize
    ensures { result ≡ words_in true line.now }
{
    let mut count: usize = 0;
    let mut was = true;
    for byte in line {
        let blank = is_blank(*byte);
        count += usize::from(was && !blank);
        was = blank;
    }
    count
}

// Where the comment starts, or the line ends.
pub fn comment_at(line: &[u8]) -> usize
    ensures { Ends plainb line.now 0 result }
{
    end_of(line, |byte| byte == COMMENT)
}

// Where the line ends that starts at `from`: at its line end, or where the text ends.
pub fn line_end(text: &[u8], from: usize) -> usize
    requires { from ≤ length text.now }
    ensures { Ends insideb text.now from result }
{
    from + end_of(&text[from..], |byte| byte == LINE_END)
}

// Whether a word is this text.
pub fn is_text(word: &[u8], text: &[u8]) -> bool
    ensures { result ≡ sameb word.now text.now }
{
    word == text
}
