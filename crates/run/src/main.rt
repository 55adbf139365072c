// Document 01's run with P = 512, M = 5,120, C = 12: each step with its answer, E and the table after it, then the run again with steps 11 and
// 12 exchanged. Every answer and every E is compared with document 01's, and so are all words after steps 5 and 12.
#![tactic(auto)]

use call::Call;
use show::answer::Answer;
use show::claim::{Tally, say_verdict};
use show::document::TABLE_WORDS;
use show::scene::{Scene, WORDS};
use show::spoken::Spoken;
use show::{case, document, scene};
use space::place::{METADATA, RAW};
use std::io::Stdout;

const PAGE: u64 = 512;

const LIMIT: u64 = 5120;

// A step: its number, the call, and what document 01 says of it, the answer and E behind it.
#[derive(Clone, Copy)]
struct Step(u64, Call, Answer, u64);

// How far the run has come.
#[derive(Clone, Copy)]
struct Run {
    stdout: Stdout,
    scene: Scene,
    tally: Tally,
}

impl Run {
    // One step: the call, its answer, E, and the table after it.
    fn step(self, step: Step) -> Run {
        let stdout = self.stdout;
        let Step(number, call, expected, end) = step;
        let asked = scene::ask(self.scene, call);
        let found = asked.answer;
        let found_end = asked.scene.space.end;
        let held = expected == found && end == found_end;
        say_verdict(stdout, held);
        let _ = print!(stdout; "step {number}: {}: ", Spoken(call));
        let _ = if held {
            println!(stdout; "{found}, E = {found_end}")
        } else {
            println!(stdout; "expected {expected}, E = {end}, found {found}, E = {found_end}")
        };
        scene::say_entries(stdout, asked.scene);
        Run {
            stdout,
            scene: asked.scene,
            tally: self.tally.count(held),
        }
    }

    fn steps(self, steps: &[Step]) -> Run {
        steps.iter().fold(self, |run, step| run.step(*step))
    }

    // That the call is refused with this number, and changes no word and nothing of the state.
    fn refuses(self, claim: &[u8], call: Call, number: u64) -> Run {
        let tally = case::refuses(self.stdout, self.tally, claim, self.scene, call, number);
        Run { tally, ..self }
    }

    // Whether all words are these.
    fn holds(self, claim: &[u8], expected: [u64; WORDS]) -> Run {
        let found = self.scene.words;
        let tally = self.tally.words(self.stdout, claim, &expected, &found);
        Run { tally, ..self }
    }
}

fn to_step_five(stdout: Stdout) -> Run {
    let opened = scene::open(PAGE, LIMIT, TABLE_WORDS);
    let claim = b"opening with P = 512, M = 5120, C = 12 is done";
    let run = Run {
        stdout,
        scene: opened.scene,
        tally: Tally::none().equal(stdout, claim, Answer::Done, opened.answer),
    };
    let run = run.steps(&[
        Step(1, Call::Allocate(METADATA, 96), Answer::At(0), 512),
        Step(2, Call::Allocate(RAW, 100), Answer::At(512), 1024),
        Step(3, Call::Allocate(METADATA, 416), Answer::At(96), 1024),
        Step(4, Call::Allocate(RAW, 700), Answer::At(1024), 2048),
        Step(5, Call::Allocate(METADATA, 10), Answer::At(2048), 2560),
    ]);
    let claim = b"after step 5 every word is document 01's";
    run.holds(claim, document::after_step_five())
}

fn to_step_ten(run: Run) -> Run {
    let run = run.steps(&[
        Step(6, Call::Release(1024, 700), Answer::Done, 2560),
        Step(7, Call::Allocate(RAW, 512), Answer::At(1024), 2560),
        Step(8, Call::Extend(1024, 512, 512), Answer::Done, 2560),
        Step(9, Call::Shorten(1024, 1024, 600), Answer::Refused(9), 2560),
    ]);
    let claim = b"step 9 is refused and leaves every word and the state as they came";
    let run = run.refuses(claim, Call::Shorten(1024, 1024, 600), 9);
    run.step(Step(10, Call::Shorten(1024, 1024, 300), Answer::Done, 2560))
}

// Steps 11 and 12, as document 01 has them.
fn in_order(run: Run) -> Run {
    let run = run.steps(&[
        Step(11, Call::Release(2048, 10), Answer::Done, 2048),
        Step(12, Call::Release(1024, 724), Answer::Done, 1024),
    ]);
    let claim = b"after step 12 every word is document 01's";
    run.holds(claim, document::after_step_twelve())
}

// Steps 11 and 12, exchanged.
fn exchanged(run: Run) -> Run {
    let run = run.steps(&[
        Step(12, Call::Release(1024, 724), Answer::Done, 2560),
        Step(11, Call::Release(2048, 10), Answer::Done, 1024),
    ]);
    let claim = b"steps 11 and 12 exchanged, by way of E = 2560, end with the same words";
    run.holds(claim, document::after_step_twelve())
}

fn main(rt: HostRuntime) {
    let stdout = rt.stdout();
    let ten = to_step_ten(to_step_five(stdout));
    let last = in_order(ten);
    let _ = println!(stdout; "steps 11 and 12 exchanged, from the table after step 10:");
    let other = exchanged(Run {
        tally: last.tally,
        ..ten
    });
    let one = last.scene.space;
    let two = other.scene.space;
    let all = other.tally;
    let all = all.equal(stdout, b"both orders end with one E", one.end, two.end);
    let claim = b"both orders end with one count of entries";
    let all = all.equal(stdout, claim, one.count, two.count);
    all.report(stdout, b"run");
}
