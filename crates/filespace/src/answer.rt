// One line: its call is named, its words are counted, its numbers are read, and then the call is made. What is wrong is said, and changes nothing.
ghost use Rattle.std.specs.Prelude.{◌≡◌, ◌≤◌, length, IfOk};
ghost use Rattle.filespace.specs.Lent.{line_bytes, table_words};

use crate::calls::Call;
use crate::carry::Run;
use crate::run_summary::TOTALS;
use crate::wrong::Wrong;
use crate::{TABLE_WORDS, calls, give, info, run_summary};
use figures::numbers::number_of;
use figures::signed::signed_of;
use say::{map, report, sheet, tables};
use script::words::{is_text, next_word};

// What a word says: a name of the call, or a number.
fn word_number(call: Call, is_first: bool, word: &[u8]) -> Result<u64, Wrong> {
    match call.named(word) {
        Some(code) if is_first => Ok(code),
        _ => Ok(number_of(word)?),
    }
}

// As many numbers as there are places for them, and what stands behind them.
fn read_numbers<'a>(call: Call, line: &'a [u8], args: &mut [u64]) -> Result<&'a [u8], Wrong>
    ensures { IfOk result (λ rest. length rest.now ≤ length line.now) }
{
    let mut rest = line;
    for i in 0..args.len() {
        let (word, behind) = next_word(rest);
        args[i] = word_number(call, i == 0, word)?;
        rest = behind;
    }
    Ok(rest)
}

// The call on its `count` numbers.
fn play(
    run: Run,
    call: Call,
    count: usize,
    args: &[u64; TABLE_WORDS],
    table: &mut [u64; TABLE_WORDS],
) -> Result<Run, Wrong>
    requires { count ≤ table_words }
{
    match call {
        Call::Open | Call::Default => give::open(run, call, args, table),
        Call::List => give::list(run, args, table),
        Call::State => Ok(give::state(run, args)),
        Call::Words => Ok(give::words(run, count, args, table)),
        Call::Write => info::write(run, args),
        _ => Ok(give::change(run, call, args, table)),
    }
}

fn answer_numbers(
    run: Run,
    call: Call,
    line: &[u8],
    count: usize,
    table: &mut [u64; TABLE_WORDS],
) -> Result<Run, Wrong> {
    let mut args = [0u64; TABLE_WORDS];
    if TABLE_WORDS < count {
        return Err(Wrong::TooMany);
    }
    read_numbers(call, line, &mut args[..count])?;
    play(run, call, count, &args, table)
}

// The numbers of a summary, of which the last has a sign.
fn answer_summary(run: Run, line: &[u8]) -> Result<Run, Wrong>
    ensures { IfOk result (λ r. r.used ≡ run.used) }
{
    let mut totals = [0u64; TOTALS];
    let rest = read_numbers(Call::Summary, line, &mut totals)?;
    let (word, _) = next_word(rest);
    let moved = signed_of(word)?;
    Ok(run_summary::set(run, &totals, moved))
}

// The one word that `show` takes.
fn show(run: Run, line: &[u8], table: &[u64]) -> Result<Run, Wrong> {
    let (word, _) = next_word(line);
    if is_text(word, b"words") {
        tables::show_words(run.stdout, table);
    } else if is_text(word, b"summary") {
        sheet::numbers(run.stdout, run.summary);
    } else {
        return Err(Wrong::NoCall);
    }
    Ok(run)
}

fn read(run: Run, line: &[u8]) -> Result<Run, Wrong>
    requires { length line.now ≤ line_bytes }
{
    let (word, _) = next_word(line);
    info::read(run, word)
}

// The call, on the rest of its line.
fn ask(
    run: Run,
    call: Call,
    line: &[u8],
    count: usize,
    table: &mut [u64; TABLE_WORDS],
) -> Result<Run, Wrong>
    requires { length line.now ≤ line_bytes }
{
    let used = run.used;
    match call {
        Call::Table => tables::table(run.stdout, run.space, &table[..used]),
        Call::Map => map::map(run.stdout, run.space, &table[..used]),
        Call::Sheet => sheet::sheet(run.stdout, run.summary),
        Call::Show => return show(run, line, &table[..used]),
        Call::Read => return read(run, line),
        Call::Summary => return answer_summary(run, line),
        Call::Fresh => return Ok(run_summary::fresh(run, table)),
        _ => return answer_numbers(run, call, line, count, table),
    }
    Ok(run)
}

fn answered(run: Run, line: &[u8], table: &mut [u64; TABLE_WORDS]) -> Result<Run, Wrong>
    requires { length line.now ≤ line_bytes }
{
    let (word, rest) = next_word(line);
    if word.is_empty() {
        return Ok(run);
    }
    let call = calls::call_of(word).ok_or(Wrong::NoCall)?;
    let count = script::words::count_words(rest);
    if !call.takes(count) {
        return Err(Wrong::Count);
    }
    ask(run, call, rest, count, table)
}

pub fn answer(run: Run, line: &[u8], table: &mut [u64; TABLE_WORDS]) -> Run
    requires { length line.now ≤ line_bytes }
{
    answered(run, line, table).unwrap_or_else(|why| {
        report::fault(run.stdout, run.line, why);
        run
    })
}
