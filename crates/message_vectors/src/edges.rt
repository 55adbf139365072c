// Each rule of the fields from both sides of its edge, by the writer: what keeps the rules is written and reads back to the same fields; what
// breaks one is refused 12, also where no byte is lent, and no byte is written.
use crate::cases::{BLOCK, fields_in, length_due, reads, say_read, untouched, writes};
use crate::tell;
use crate::tell::{agree, begin, finish, item};
use message::Fields;
use show::claim::Tally;
use std::io::Stdout;

// The undefined address: all ones.
const NONE: u64 = u64::MAX;

// The good message's fields with another page size, strategy, persist byte and last small address, and whether they keep the rules.
#[derive(Clone, Copy)]
struct Edge {
    page: u64,
    strategy: u8,
    persist: u8,
    address: u64,
    keeps: bool,
}

// Fields that keep the rules are written and read back.
fn kept(stdout: Stdout, fields: Fields) -> bool {
    let mut block = untouched();
    let answer = message::write(fields, &mut block);
    agree(stdout, tell::WRITE, 0, message::number_of(answer))
        && reads(stdout, &block, 0, fields, BLOCK - length_due(fields))
}

// Fields that break one are refused.
fn broken(stdout: Stdout, fields: Fields) -> bool {
    let blank = untouched();
    writes(stdout, fields, BLOCK, 12, &blank) && writes(stdout, fields, 0, 12, &blank)
}

// What the claim of a case says of its fields.
fn say_fields(stdout: Stdout, held: bool, fields: Fields) {
    begin(stdout, held, tell::PAGE, fields.page);
    item(stdout, tell::STRATEGY, u64::from(fields.strategy));
    item(stdout, tell::PERSIST, u64::from(fields.persist));
    item(stdout, tell::ADDRESS, fields.small[5]);
}

impl Edge {
    const fn new(page: u64, strategy: u8, persist: u8, address: u64, keeps: bool) -> Edge {
        Edge {
            page,
            strategy,
            persist,
            address,
            keeps,
        }
    }

    // The fields of the case.
    fn fields(self, good: Fields) -> Fields {
        let mut small = good.small;
        small[5] = self.address;
        Fields {
            page: self.page,
            strategy: self.strategy,
            persist: self.persist,
            small,
            ..good
        }
    }

    // That the fields are written and read back, or refused.
    fn claim(self, stdout: Stdout, t: Tally, good: Fields) -> Tally {
        let fields = self.fields(good);
        if self.keeps {
            let held = kept(stdout, fields);
            say_fields(stdout, held, fields);
            item(stdout, tell::WRITE, 0);
            say_read(stdout, 0, BLOCK - length_due(fields));
            return finish(stdout, t, held);
        }
        let held = broken(stdout, fields);
        say_fields(stdout, held, fields);
        item(stdout, tell::WRITE, 12);
        item(stdout, tell::INTO_NONE, 12);
        finish(stdout, t, held)
    }
}

// The fields of the good message have every address all ones.
pub fn edges(stdout: Stdout, t: Tally, good: &[u8; BLOCK]) -> Tally {
    let fields = fields_in(good);
    let cases = [
        Edge::new(511, 1, 1, NONE, false),
        Edge::new(512, 1, 1, NONE, true),
        Edge::new(1000, 1, 1, NONE, true),
        Edge::new(1073741824, 1, 1, 0, true),
        Edge::new(1073741825, 1, 1, NONE, false),
        Edge::new(4096, 3, 1, 0, true),
        Edge::new(4096, 4, 1, NONE, false),
        Edge::new(4096, 1, 2, NONE, false),
        Edge::new(4096, 1, 0, NONE, true),
        Edge::new(4096, 1, 0, NONE - 1, false),
    ];
    cases
        .iter()
        .fold(t, |t, case| case.claim(stdout, t, fields))
}
