// `filespace` reads calls from standard input, one to a line, and answers each. It is thin: the words of a line are `script`'s, what a word
// says is `figures`', the calls are those of `own_summary`, `space` and `message`, and `say` prints. What is here is proved to be safe and to end;
// what is read and written, nothing can promise.
#![tactic(auto)]

mod answer;
mod calls;
mod carry;
mod give;
mod info;
mod run_summary;
mod wrong;

use carry::Run;
use pieces::ENTRY_WORDS;
use say::report;
use script::words::comment_at;
use std::io::{Read, Stdin};
use wrong::Wrong;

const LINE: usize = 100000;

// The entries of the lent table, the most that an opening may name, and its words, the most that a call names.
const MOST_ENTRIES: usize = 2048;

const TABLE_WORDS: usize = MOST_ENTRIES * ENTRY_WORDS;

// The most words or bytes that are lent to a call.
const MOST_ROOM: usize = 4096;

// So many bytes are read at once.
const CHUNK_BYTES: usize = 65536;

const NEWLINE: u8 = b'\n';

// The line is whole: it is answered up to its comment, and the next one starts.
fn end_line(run: Run, line: &[u8; LINE], table: &mut [u64; TABLE_WORDS]) -> Run {
    let Some(filled) = run.filled else {
        report::fault(run.stdout, run.line, Wrong::TooLong);
        return run.next_line();
    };
    let line = &line[..filled];
    let end = comment_at(line);
    answer::answer(run, &line[..end], table).next_line()
}

// More bytes of the line. What is longer than a line may be is not kept.
fn keep(mut run: Run, part: &[u8], line: &mut [u8; LINE]) -> Run {
    run.filled = match run.filled {
        Some(filled) if part.len() <= LINE - filled => {
            line[filled..filled + part.len()].copy_from_slice(part);
            Some(filled + part.len())
        }
        _ => None,
    };
    run
}

// The next bytes of a line, up to its end or to that of what was read.
fn feed(run: Run, part: &[u8], line: &mut [u8; LINE], table: &mut [u64; TABLE_WORDS]) -> Run {
    match part.split_last() {
        Some((&NEWLINE, last)) => end_line(keep(run, last, line), line, table),
        _ => keep(run, part, line),
    }
}

// The bytes that were read, line by line: a run is carried from line to line, since to move it at each byte took ten times as long.
fn feed_all(run: Run, text: &[u8], line: &mut [u8; LINE], table: &mut [u64; TABLE_WORDS]) -> Run {
    let mut next = run;
    for part in text.split_inclusive(|byte| *byte == NEWLINE) {
        next = feed(next, part, line, table);
    }
    next
}

// Reads once, and answers the lines that are whole. Nothing is carried on where the input is over, or cannot be read: a last line without its end is
// a line too.
fn turn(
    mut stdin: Stdin,
    run: Run,
    line: &mut [u8; LINE],
    table: &mut [u64; TABLE_WORDS],
) -> Option<Run> {
    let mut chunk = [0u8; CHUNK_BYTES];
    let n = stdin.read(&mut chunk).unwrap_or(0);
    if n == 0 {
        end_line(run, line, table);
        return None;
    }
    Some(feed_all(run, &chunk[..n], line, table))
}

// A proved loop has to end, and nothing says that the input does. So the loop counts its turns, up to a number that no run uses up.
fn turns(stdin: Stdin, start: Run, line: &mut [u8; LINE], table: &mut [u64; TABLE_WORDS]) {
    let mut run = start;
    for _ in 0..u64::MAX {
        let Some(next) = turn(stdin, run, line, table) else {
            return;
        };
        run = next;
    }
}

fn main(rt: HostRuntime) {
    let mut line = [0u8; LINE];
    let mut table = [0u64; TABLE_WORDS];
    turns(
        rt.stdin(),
        Run::at_first(rt.stdout()),
        &mut line,
        &mut table,
    );
}
