// The judgement of a log, block after block: what is carried from one block to the next goes by value, and the table is lent.
//
//   judge_log     a whole log at once
//   start         before the first block
//   next          one block more, of any length: one that has not 512 bytes is damage
//   next_blocks   the blocks that a part of the log is cut into
//   conclude      after the last
#![tactic(auto)]

ghost use Rattle.std.specs.Prelude.{[], ◌∷◌, ◌≡◌, ◌+◌, ◌^◌, ◌<◌};
ghost use Rattle.log_judge.specs.Carried.{stands_after, damaged_after, someb, Going, Fits, Starts, Follows, Ends};
ghost use Rattle.log_check.specs.Check.{block_bytes};
ghost use Rattle.log_judge.specs.Judged.{judged, blocks_of};
ghost use Rattle.log_play.specs.Lent.{Lent};

use log_blocks::MOST_RECORDS;
use log_check::BLOCK_BYTES;
use log_play::Held;
use pieces::ENTRY_WORDS;
use sound::LARGEST_CAPACITY;
use space::Space;

pub const TABLE_WORDS: usize = LARGEST_CAPACITY * ENTRY_WORDS;

// What a log comes to that agrees: how many records it has, and the end of file behind them.
#[derive(Clone, Copy, PartialEq, Eq)]
pub struct Agreement {
    pub records: u64,
    pub end: u64,
}

// Why a log does not agree: the first record that disagrees, or the first bad block.
#[derive(Clone, Copy, PartialEq, Eq)]
pub enum Fault {
    Differs(u64),
    Damaged(u64),
}

// What is carried: how the log stands; how many blocks are full and good, and how many records were played; whether the last block has fewer records
// than a full one, so that nothing may follow it; and the file.
#[derive(Clone, Copy)]
pub struct Judge {
    pub standing: Result<(), Fault>,
    pub blocks: u64,
    pub records: u64,
    pub last: bool,
    pub file: Held,
}

// Before the first block there is no file.
pub fn start() -> Judge
    ensures { Starts result }
{
    Judge {
        standing: Ok(()),
        blocks: 0,
        records: 0,
        last: false,
        file: Held {
            space: Space {
                page: 0,
                limit: 0,
                end: 0,
                count: 0,
            },
            used: 0,
        },
    }
}

// The next block is bad, or one follows that has to be the last.
fn damaged(judge: Judge) -> Judge
    ensures { result ≡ damaged_after judge }
{
    Judge {
        standing: Err(Fault::Damaged(judge.blocks)),
        ..judge
    }
}

// How a log stands behind so many records that agree, and some more of the next ones.
fn stand(records: u64, agreed: u64, count: u64) -> Result<(), Fault>
    requires { records + agreed < 2 ^ 64 }
    ensures { result ≡ stands_after records agreed count }
{
    if agreed < count {
        return Err(Fault::Differs(records + agreed));
    }
    Ok(())
}

// The next block of a log that agrees so far, and may go on: it is tested first, and then its records are played.
fn judge_block(judge: Judge, block: &[u8], table: &mut [u64]) -> Judge
    requires { Going judge × (Lent table.old × Fits judge) }
    ensures { Follows judge table.old (block.now ∷ []) result table.new }
{
    if !log_blocks::is_block(judge.blocks, block) {
        return damaged(judge);
    }
    let count = log_blocks::count(block);
    let file = judge.file;
    let run = log_play::play(block, count, file, table);
    let file = run.file;
    let standing = stand(judge.records, run.agreed as u64, count as u64);
    let records = judge.records + count as u64;
    if count < MOST_RECORDS {
        return Judge {
            standing,
            blocks: judge.blocks,
            records,
            last: true,
            file,
        };
    }
    Judge {
        standing,
        blocks: judge.blocks + 1,
        records,
        last: false,
        file,
    }
}

// One block more. What stands is kept: a difference in an earlier block, and damage.
pub fn next(judge: Judge, block: &[u8], table: &mut [u64]) -> Judge
    requires { Lent table.old × Fits judge }
    ensures { Follows judge table.old (block.now ∷ []) result table.new }
{
    if judge.last {
        return damaged(judge);
    }
    match judge.standing {
        Ok(()) => judge_block(judge, block, table),
        Err(_) => judge,
    }
}

// Whether any block was good.
fn has_block(judge: Judge) -> bool
    ensures { result ≡ someb judge }
{
    judge.last || judge.blocks != 0
}

// The judgement where nothing follows. A log without a block is damaged.
pub fn conclude(judge: Judge) -> Result<Agreement, Fault>
    ensures { Ends judge result }
{
    judge.standing?;
    if !has_block(judge) {
        return Err(Fault::Damaged(0));
    }
    Ok(Agreement {
        records: judge.records,
        end: judge.file.space.end,
    })
}

// The blocks that a part of a log is cut into, one after the other.
pub fn next_blocks(judge: Judge, part: &[u8], table: &mut [u64]) -> Judge
    requires { Lent table.old × Fits judge }
    ensures { Follows judge table.old (blocks_of part.now) result table.new }
{
    let mut carried = judge;
    for block in part.chunks(BLOCK_BYTES) {
        carried = next(carried, block, table);
    }
    carried
}

// A whole log, over a table of its own.
pub fn judge_log(log: &[u8]) -> Result<Agreement, Fault>
    ensures { result ≡ judged (blocks_of log.now) }
{
    let mut table = [0u64; TABLE_WORDS];
    conclude(next_blocks(start(), log, &mut table))
}
