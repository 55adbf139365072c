// Standard output. What a write answers is not looked at: a program's output is compared as a whole.
use std::io::Stdout;

pub fn say(stdout: Stdout, text: &[u8]) {
    let _ = stdout.write_all(text);
}

pub fn say_number(stdout: Stdout, n: u64) {
    let _ = stdout.print(n);
}

// A text, and the line's end.
pub fn say_line(stdout: Stdout, text: &[u8]) {
    say(stdout, text);
    say(stdout, b"\n");
}

// Line k of a text, counted from 0, without its end. Nothing, where there is none.
pub fn say_nth(stdout: Stdout, text: &[u8], k: u64) {
    if let Some(line) = text.split(|byte| *byte == b'\n').nth(k as usize) {
        say(stdout, line);
    }
}
