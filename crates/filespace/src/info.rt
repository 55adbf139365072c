// The File Space Info message: read out of bytes, and written into lent ones.
ghost use Rattle.std.specs.Prelude.{◌≤◌, length};
ghost use Rattle.filespace.specs.Lent.{line_bytes};

use crate::carry::Run;
use crate::wrong::Wrong;
use crate::{MOST_ROOM, TABLE_WORDS};
use message::Fields;
use say::report::Verdict;
use say::{Hex, Words};
use std::io::Stdout;

const TYPES: usize = 6;

const ROOM_AT: usize = 18;

// A line has two digits for each of so many bytes.
const BYTES: usize = 50000;

// The lent bytes before a message is written.
const LENT: u8 = 0xaa;

fn say_fields(stdout: Stdout, fields: Fields) {
    let Fields {
        strategy,
        persist,
        threshold,
        page,
        page_end,
        eoa,
        small,
        large,
    } = fields;
    let _ = print!(stdout;
        "strategy {strategy}; persist {persist}; threshold {threshold}; page {page}; page-end {page_end}; eoa {eoa}; "
    );
    let _ = print!(stdout; "small{}; large{}", Words(&small), Words(&large));
}

// The fields, or the refusal, and how many bytes follow.
fn say_message(stdout: Stdout, bytes: &[u8]) {
    let message = message::read(bytes);
    match message {
        Ok(fields) => say_fields(stdout, fields),
        Err(_) => {
            let _ = print!(stdout; "{}", Verdict(message::number_of(message)));
        }
    }
    let rest = message::rest(bytes);
    let _ = println!(stdout; "; {} bytes follow", rest.len());
}

pub fn read(run: Run, word: &[u8]) -> Result<Run, Wrong>
    requires { length word.now ≤ line_bytes }
{
    let mut bytes = [0u8; BYTES];
    if !figures::bytes::is_hex(word) {
        return Err(Wrong::NotHex);
    }
    let n = word.len() / 2;
    figures::bytes::unhex(word, &mut bytes);
    say_message(run.stdout, &bytes[..n]);
    Ok(run)
}

fn addresses(args: &[u64; TABLE_WORDS], from: usize) -> [u64; TYPES]
    requires { from ≤ 12 }
{
    [
        args[from],
        args[from + 1],
        args[from + 2],
        args[from + 3],
        args[from + 4],
        args[from + 5],
    ]
}

// The fields, where each number fits its own.
fn fields_of(args: &[u64; TABLE_WORDS]) -> Option<Fields> {
    Some(Fields {
        strategy: u8::try_from(args[0]).ok()?,
        persist: u8::try_from(args[1]).ok()?,
        threshold: args[2],
        page: args[3],
        page_end: u16::try_from(args[4]).ok()?,
        eoa: args[5],
        small: addresses(args, 6),
        large: addresses(args, 12),
    })
}

fn write_into(stdout: Stdout, fields: Fields, room: &mut [u8]) {
    let answer = message::write(fields, room);
    let _ = match answer {
        Ok(()) => println!(stdout; "wrote {}", Hex(room)),
        Err(_) => println!(stdout; "{}", Verdict(message::number_of(answer))),
    };
}

pub fn write(run: Run, args: &[u64; TABLE_WORDS]) -> Result<Run, Wrong> {
    let mut bytes = [LENT; MOST_ROOM];
    let fields = fields_of(args).ok_or(Wrong::TooMany)?;
    if (MOST_ROOM as u64) < args[ROOM_AT] {
        return Err(Wrong::TooMany);
    }
    let room = args[ROOM_AT] as usize;
    write_into(run.stdout, fields, &mut bytes[..room]);
    Ok(run)
}
