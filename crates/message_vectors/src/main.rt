// Holds the message against outside bytes. data/hdf5-messages.txt is the customer's file: messages cut out of files that HDF5 1.10.8
// wrote, with their fields. Each line of the output is a claim, with what is expected in it; what was found stands before it where it
// fails.
#![tactic(auto)]

mod cases;
mod damage;
mod edges;
mod lengths;
mod lines;
mod middle;
mod order;
mod tell;
mod vectors;

ghost use Rattle.std.specs.Prelude.{◌≤◌, length};

use cases::{BLOCK, HEAD, PERSIST_AT, block_with, head, untouched, with_byte};
use lines::{is_name, line, next_line};
use show::claim::Tally;
use std::fs::File;
use std::io;
use std::io::{Read, Stdout};

// The file has fewer bytes than this.
const SPACE_BYTES: usize = 65536;

// The claims over one good message with its addresses, and over it without persistence: with the bytes of the addresses behind it, and with
// others.
fn more(stdout: Stdout, t: Tally, good: &[u8; BLOCK]) -> Tally {
    let bare = with_byte(good, PERSIST_AT, 0);
    let alone = block_with(head(&bare, HEAD), 0);
    let t = damage::damages(stdout, t, good);
    let t = order::order(stdout, t, good);
    let t = lengths::lengths(stdout, t, good);
    let t = lengths::lengths(stdout, t, &bare);
    let t = lengths::lengths(stdout, t, &alone);
    let t = middle::middle(stdout, t, good);
    let t = middle::middle(stdout, t, &bare);
    edges::edges(stdout, t, good)
}

// The message of the vector whose name stands at a place.
fn sample(file: &[u8], at: usize) -> [u8; BLOCK]
    requires { at ≤ length file.now }
{
    let mut good = untouched();
    vectors::bytes_said(line(file, next_line(file, at)), &mut good);
    good
}

// Each vector of the file, and the claims over the last one.
fn run(stdout: Stdout, file: &[u8]) {
    let mut t = Tally::none();
    let mut at = 0;
    let mut last = 0;
    // A `while`, since each turn goes on by a line: a vector has two more lines behind its name, and is asked for by its place.
    while at < file.len() {
        if is_name(file, at) {
            t = vectors::vector(stdout, t, file, at);
            last = at;
        }
        at = next_line(file, at);
    }
    let good = sample(file, last);
    let t = more(stdout, t, &good);
    t.report(stdout, b"message_vectors");
}

// Reads until the space is full, the file is over or a read fails, and answers how many bytes were read.
fn read_full(mut file: File, space: &mut [u8]) -> usize
    ensures { result ≤ length space.new }
{
    let mut done = 0;
    // A `while`, since a read fills as much as it likes of the part that is left.
    while done < space.len() {
        match file.read(&mut space[done..]) {
            Ok(0) | Err(_) => {
                return done;
            }
            Ok(n) => done += n,
        }
    }
    done
}

fn main(rt: HostRuntime) -> io::Result<()> {
    let mut space = [0u8; SPACE_BYTES];
    let n = read_full(File::open(&rt, "hdf5-messages.txt")?, &mut space);
    run(rt.stdout(), &space[..n]);
    Ok(())
}
