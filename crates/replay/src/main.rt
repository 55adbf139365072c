// `replay` reads a recorder's log from standard input to its end, whatever its length, and says in one line how it is judged. It is thin: the
// judgement is that of `log_judge`, of which a buffer of whole blocks is given at a time. What is read and written, nothing can promise.
#![tactic(auto)]

ghost use Rattle.std.specs.Prelude.{◌≡◌, length};
ghost use Rattle.log_play.specs.Lent.{Lent};
ghost use Rattle.replay.specs.Reading.{buffer_bytes, Carried};

use log_check::BLOCK_BYTES;
use log_judge::{Agreement, Fault, Judge, TABLE_WORDS};
use std::io::{Read, Stderr, Stdin, Stdout};
use std::process::ExitCode;

const BUFFER_BYTES: usize = 128 * BLOCK_BYTES;

// What is carried from read to read: the judge of what was read before the buffer was emptied last, and how many bytes are in the buffer since then: a
// length beside a buffer, since the memory is fixed (the library allocates nothing, and this program neither).
#[derive(Clone, Copy)]
pub struct Reading {
    pub judge: Judge,
    pub filled: usize,
}

// Where the log comes from, where its judgement goes, and where it is told that it cannot be read.
#[derive(Clone, Copy)]
struct Streams {
    stdin: Stdin,
    stdout: Stdout,
    stderr: Stderr,
}

fn at_first() -> Reading
    ensures { Carried result }
{
    Reading {
        judge: log_judge::start(),
        filled: 0,
    }
}

// The buffer has so many bytes now. Where it is full its blocks are judged, and it is empty then.
fn filled_to(
    reading: Reading,
    filled: usize,
    buffer: &[u8; BUFFER_BYTES],
    table: &mut [u64; TABLE_WORDS],
) -> Reading
    requires { Carried reading }
    ensures { Carried result }
{
    if filled < BUFFER_BYTES {
        return Reading { filled, ..reading };
    }
    let judge = log_judge::next_blocks(reading.judge, buffer, table);
    Reading { judge, filled: 0 }
}

// The line of a judgement.
fn say_verdict(stdout: Stdout, verdict: Result<Agreement, Fault>) {
    let _ = match verdict {
        Ok(agreement) => println!(stdout; "agrees {} {}", agreement.records, agreement.end),
        Err(Fault::Differs(record)) => println!(stdout; "differs {record}"),
        Err(Fault::Damaged(block)) => println!(stdout; "damaged {block}"),
    };
}

// What is left in the buffer is judged.
fn judge_rest(reading: Reading, buffer: &[u8], table: &mut [u64]) -> Result<Agreement, Fault>
    requires { (length buffer.now ≡ buffer_bytes) × (Lent table.old × Carried reading) }
{
    let judge = log_judge::next_blocks(reading.judge, &buffer[..reading.filled], table);
    log_judge::conclude(judge)
}

// A proved loop has to end, and nothing says that the input does. So the loop counts its turns, up to a number that no run uses up. Of a log that
// could not be read to its end nothing is said but that, on standard error.
fn turns(
    streams: Streams,
    buffer: &mut [u8; BUFFER_BYTES],
    table: &mut [u64; TABLE_WORDS],
) -> ExitCode {
    let mut stdin = streams.stdin;
    let mut reading = at_first();
    for _ in 0..u64::MAX {
        let filled = reading.filled;
        match stdin.read(&mut buffer[filled..]) {
            Ok(0) => {
                say_verdict(streams.stdout, judge_rest(reading, buffer, table));
                return ExitCode::SUCCESS;
            }
            Ok(n) => reading = filled_to(reading, filled + n, buffer, table),
            Err(error) => {
                let _ = println!(streams.stderr; "replay: standard input: {error}");
                return ExitCode::FAILURE;
            }
        }
    }
    ExitCode::FAILURE
}

fn main(rt: HostRuntime) -> ExitCode {
    let streams = Streams {
        stdin: rt.stdin(),
        stdout: rt.stdout(),
        stderr: rt.stderr(),
    };
    let mut buffer = [0u8; BUFFER_BYTES];
    let mut table = [0u64; TABLE_WORDS];
    turns(streams, &mut buffer, &mut table)
}
