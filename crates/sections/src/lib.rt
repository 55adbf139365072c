// The free sections of one class of a table: counted, and written into a lent list slice as pairs of address and size.
#![tactic(auto)]

ghost use Rattle.std.specs.Prelude.{◌≡◌, ◌*◌, ◌≤◌, length};
ghost use Rattle.pieces.specs.Words.{entries_in};
ghost use Rattle.sections.specs.Sections.{sections, pair_words, list_words, list_said, listed_in};

use pieces::{Class, kind};

pub const PAIR_WORDS: usize = 2;

// How many of the entries are free and of a class.
fn count_sections(class: Class, entries: &[u64]) -> usize
    ensures { result ≡ length (sections class (entries_in entries.now)) }
{
    let mut count = 0;
    // `count` is how many there are among the first i.
    for i in 0..pieces::count_in(entries) {
        if kind::is_free_of(pieces::words_at(entries, i).kind, class) {
            count += 1;
        }
    }
    count
}

// Address and size of each of them go into the list's words, and nothing behind them.
fn write_sections(class: Class, entries: &[u64], out: &mut [u64])
    requires { length (sections class (entries_in entries.now)) * pair_words ≤ length out.old }
    ensures { out.new ≡ list_words out.old (sections class (entries_in entries.now)) }
{
    let mut at = 0;
    // The pairs of those among the first i entries stand in front of `at`, and from there on all is as it came.
    for i in 0..pieces::count_in(entries) {
        let entry = pieces::words_at(entries, i);
        if kind::is_free_of(entry.kind, class) {
            out[at] = entry.address;
            out[at + 1] = entry.size;
            at += PAIR_WORDS;
        }
    }
}

// The free sections of a class, written if the slice has room for all of them: how many they are, or none where it hasn't.
pub fn list(class: Class, entries: &[u64], out: &mut [u64]) -> Option<usize>
    ensures { list_said result out.new ≡ listed_in out.old (sections class (entries_in entries.now)) }
{
    let count = count_sections(class, entries);
    if out.len() < count * PAIR_WORDS {
        return None;
    }
    write_sections(class, entries, out);
    Some(count)
}
