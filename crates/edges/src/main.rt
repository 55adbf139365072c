// Every refusal of every call at its edge, from both sides, and the cases that document 01 names under 'By program'. Each case is a claim. After
// each refused call every lent word and the state are compared with what they were.
#![tactic(auto)]

mod asking;
mod cases;
mod damage;
mod full;
mod giving;
mod listing;
mod opening;
mod scenes;
mod thousand;
mod unsound;

use show::claim::Tally;
use show::text::say_line;

fn main(rt: HostRuntime) {
    let stdout = rt.stdout();
    say_line(stdout, b"opening");
    let t = opening::all(stdout, Tally::none());
    say_line(stdout, b"requests");
    let t = asking::all(stdout, t);
    say_line(stdout, b"release, extend, shorten");
    let t = thousand::all(stdout, giving::all(stdout, t));
    say_line(stdout, b"full tables");
    let t = full::all(stdout, t);
    say_line(stdout, b"listing");
    let t = listing::all(stdout, t);
    say_line(stdout, b"damaged tables");
    let t = unsound::all(stdout, damage::all(stdout, t));
    t.report(stdout, b"edges");
}
