// A call as a claim.
ghost use Rattle.std.specs.Prelude.{◌≡◌, Bool, ◌&&◌, eqb};
ghost use Rattle.show.specs.Answers.{sameb};
ghost use Rattle.show.specs.Claims.{counted, Tells};
ghost use Rattle.show.specs.Scenes.{SameScene, asked_of, RefusedAs};

use crate::answer::Answer;
use crate::claim::{Tally, say_claim};
use crate::scene::Scene;
use crate::text::say;
use crate::{scene, words};
use call::Call;
use std::io::Stdout;

// That the call has this answer, and leaves the file with this end.
pub fn answers(
    stdout: Stdout,
    t: Tally,
    claim: &[u8],
    before: Scene,
    call: Call,
    expected: Answer,
    end: u64,
) -> Tally
    ensures { result ≡ counted t (sameb expected (asked_of before call).answer && eqb (asked_of before call).scene.space.end end) }
{
    let asked = scene::ask(before, call);
    let found = asked.answer;
    let found_end = asked.scene.space.end;
    let held = expected == found && found_end == end;
    say_claim(stdout, held, claim);
    if !held {
        let _ = println!(stdout; "{expected} and E = {end}, found {found} and E = {found_end}");
    }
    t.count(held)
}

// What differs between two scenes.
fn say_difference(stdout: Stdout, expected: Scene, found: Scene) {
    say(stdout, b"that state and every such word, found others; ");
    words::say_difference(stdout, &expected.words, &found.words);
}

// That two scenes have the same words and the same state.
pub fn same(stdout: Stdout, t: Tally, claim: &[u8], expected: Scene, found: Scene) -> Tally
    ensures { (h : Bool) → Tells h (SameScene expected found) → result ≡ counted t h }
{
    let held = scene::same_scene(expected, found);
    say_claim(stdout, held, claim);
    if !held {
        say_difference(stdout, expected, found);
    }
    t.count(held)
}

// That the call is refused with this number, and leaves every word and the state as they came.
pub fn refuses(
    stdout: Stdout,
    t: Tally,
    claim: &[u8],
    before: Scene,
    call: Call,
    number: u64,
) -> Tally
    ensures { (h : Bool) → Tells h (RefusedAs before call number) → result ≡ counted t h }
{
    let asked = scene::ask(before, call);
    let found = asked.answer;
    let expected = Answer::Refused(number);
    if expected != found {
        return t.equal(stdout, claim, expected, found);
    }
    same(stdout, t, claim, before, asked.scene)
}
