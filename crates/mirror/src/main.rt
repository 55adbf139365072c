// The mirror job: the crane's file and the server's, kept alike by the same requests. Both are opened with the same numbers, both get
// the same requests, both are purged by one list, each in an order of its own, and both get further requests. Every word must agree.
#![tactic(auto)]

use call::Call;
use show::answer::Answer;
use show::claim::{Tally, say_verdict};
use show::scene::Scene;
use show::spoken::Spoken;
use show::{case, scene, words};
use space::place::{METADATA, RAW};
use std::io::Stdout;

// The addresses below are those that document 01's rules give with pages of this size, whatever size a default opening has.
const PAGE: u64 = 4096;

const LIMIT: u64 = sound::LARGEST_LIMIT;

// The pieces that both give back: address and size.
const LIST: [(u64, u64); 6] = [
    (8192, 10000),
    (4096, 300),
    (24576, 1500),
    (3072, 200),
    (28672, 6000),
    (4396, 3796),
];

// A request to both, and the answer of each.
#[derive(Clone, Copy)]
struct Request(Call, Answer);

// One file, and the claims so far.
#[derive(Clone, Copy)]
struct Job {
    stdout: Stdout,
    scene: Scene,
    tally: Tally,
}

#[derive(Clone, Copy)]
struct Both {
    stdout: Stdout,
    crane: Scene,
    server: Scene,
    tally: Tally,
}

impl Job {
    // One release, with the end that it leaves. It must be done.
    fn release(self, address: u64, size: u64) -> Job {
        let stdout = self.stdout;
        let call = Call::Release(address, size);
        let asked = scene::ask(self.scene, call);
        let found = asked.answer;
        let held = found == Answer::Done;
        say_verdict(stdout, held);
        let end = asked.scene.space.end;
        let _ = println!(stdout; "{}: {found}, E = {end}", Spoken(call));
        Job {
            stdout,
            scene: asked.scene,
            tally: self.tally.count(held),
        }
    }

    // The pieces are given back in this order.
    fn purge(self, list: &[(u64, u64)]) -> Job {
        list.iter()
            .fold(self, |job, (address, size)| job.release(*address, *size))
    }
}

impl Both {
    // The two files, opened. Their tables have the same words.
    fn open(stdout: Stdout) -> Both {
        let crane = scene::open(PAGE, LIMIT, scene::WORDS);
        let server = scene::open(PAGE, LIMIT, scene::WORDS);
        let t = Tally::none();
        let t = t.equal(
            stdout,
            b"the crane's file is opened",
            Answer::Done,
            crane.answer,
        );
        let t = t.equal(
            stdout,
            b"the server's file is opened",
            Answer::Done,
            server.answer,
        );
        Both {
            stdout,
            crane: crane.scene,
            server: server.scene,
            tally: t,
        }
    }

    // The same request to both: the crane's answer and the server's are this one.
    fn ask(self, request: Request) -> Both {
        let stdout = self.stdout;
        let Request(call, expected) = request;
        let crane = scene::ask(self.crane, call);
        let server = scene::ask(self.server, call);
        let held = expected == crane.answer && expected == server.answer;
        say_verdict(stdout, held);
        let _ = print!(stdout; "both: {}: ", Spoken(call));
        let _ = if held {
            println!(stdout; "{expected}")
        } else {
            println!(stdout;
                "expected {expected}, found {} and {}",
                crane.answer, server.answer
            )
        };
        Both {
            stdout,
            crane: crane.scene,
            server: server.scene,
            tally: self.tally.count(held),
        }
    }

    fn ask_all(self, requests: &[Request]) -> Both {
        requests
            .iter()
            .fold(self, |both, request| both.ask(*request))
    }

    fn job(self, scene: Scene) -> Job {
        Job {
            stdout: self.stdout,
            scene,
            tally: self.tally,
        }
    }

    // The crane gives the list's pieces back in its order, and the server in another.
    fn purge(self) -> Both {
        let stdout = self.stdout;
        let [a, b, c, d, e, f] = LIST;
        let _ = println!(stdout; "the crane purges:");
        let one = self.job(self.crane).purge(&[a, b, c, d, e, f]);
        let _ = println!(stdout; "the server purges by the same list, in another order:");
        let behind = Both {
            crane: one.scene,
            tally: one.tally,
            ..self
        };
        let two = behind.job(self.server).purge(&[f, c, a, e, b, d]);
        Both {
            server: two.scene,
            tally: two.tally,
            ..behind
        }
    }

    // What each holds, that every word agrees, and that the states do.
    fn compare(self) -> Both {
        let stdout = self.stdout;
        say_holding(stdout, "the crane", self.crane);
        say_holding(stdout, "the server", self.server);
        words::say_agreement(stdout, &self.crane.words, &self.server.words);
        let claim = b"the crane and the server have the same words and the same state";
        let tally = case::same(stdout, self.tally, claim, self.crane, self.server);
        Both { tally, ..self }
    }
}

fn say_holding(stdout: Stdout, who: &str, scene: Scene) {
    let _ = println!(stdout; "{who} holds, with E = {}:", scene.space.end);
    scene::say_entries(stdout, scene);
}

fn requests(both: Both) -> Both {
    both.ask_all(&[
        Request(Call::Allocate(METADATA, 2048), Answer::At(0)),
        Request(Call::Allocate(RAW, 300), Answer::At(4096)),
        Request(Call::Allocate(RAW, 10000), Answer::At(8192)),
        Request(Call::Allocate(METADATA, 1024), Answer::At(2048)),
        Request(Call::Allocate(RAW, 4096), Answer::At(20480)),
        Request(Call::Allocate(METADATA, 1500), Answer::At(24576)),
        Request(Call::Allocate(RAW, 3796), Answer::At(4396)),
        Request(Call::Allocate(RAW, 6000), Answer::At(28672)),
        Request(Call::Allocate(METADATA, 200), Answer::At(3072)),
        Request(Call::Allocate(METADATA, 5), Answer::At(3272)),
    ])
}

fn further_requests(both: Both) -> Both {
    both.ask_all(&[
        Request(Call::Allocate(RAW, 8192), Answer::At(4096)),
        Request(Call::Allocate(METADATA, 700), Answer::At(3277)),
        Request(Call::Extend(20480, 4096, 5000), Answer::Done),
        Request(Call::Shorten(4096, 8192, 4000), Answer::Done),
        Request(Call::Allocate(RAW, 60), Answer::At(12288)),
        Request(Call::Release(4096, 300), Answer::Refused(16)),
    ])
}

fn main(rt: HostRuntime) {
    let stdout = rt.stdout();
    let both = requests(Both::open(stdout)).compare();
    let both = both.purge().compare();
    let both = further_requests(both).compare();
    both.tally.report(stdout, b"mirror");
}
