// Words of a lent table moved or cleared in place. A move goes by blocks: `copy_within` alone moves one word at a time, and with it a call at 100 entries
// took 0.70 us, 0.71 times plain C, where the goal is 0.65 (docs/BENCH.md); by blocks it took 0.61, 0.63 times. Down and up differ in the order
// of the blocks, which keeps what is not yet read: one function of both would hold the two loops all the same.
#![tactic(auto)]

ghost use Rattle.std.specs.Prelude.{◌≡◌, ◌+◌, ◌*◌, ◌≤◌, length, take, drop, replicate};
ghost use Rattle.std.proofs.Math.Seq.{paste};
ghost use Rattle.moves.specs.Moves.{move_block};

const BLOCK: usize = 4;

// The words of the block from `from` on.
fn block_at(table: &[u64], from: usize) -> [u64; BLOCK]
    requires { from + move_block ≤ length table.now }
    ensures { result ≡ take move_block (drop from table.now) }
{
    let mut block = [0; BLOCK];
    for k in 0..BLOCK {
        block[k] = table[from + k];
    }
    block
}

// The block from `from` on goes to `to`, up or down. All its words are loaded before the first is stored: so overlap is harmless, and the
// compiler makes moves of 16 bytes of them.
fn move_block(table: &mut [u64], to: usize, from: usize)
    requires { (to + move_block ≤ length table.old) × (from + move_block ≤ length table.old) }
    ensures { table.new ≡ paste table.old to (drop from table.old) move_block }
{
    let block = block_at(table, from);
    for k in 0..BLOCK {
        table[to + k] = block[k];
    }
}

// So many blocks from `from` on go down to `to`, the first first.
fn blocks_down(table: &mut [u64], to: usize, from: usize, blocks: usize)
    requires { (to ≤ from) × (from + blocks * move_block ≤ length table.old) }
    ensures { table.new ≡ paste table.old to (drop from table.old) (blocks * move_block) }
{
    for k in 0..blocks {
        move_block(table, to + k * BLOCK, from + k * BLOCK);
    }
}

// So many blocks from `from` on go up to `to`, the last first.
fn blocks_up(table: &mut [u64], to: usize, from: usize, blocks: usize)
    requires { (from ≤ to) × (to + blocks * move_block ≤ length table.old) }
    ensures { table.new ≡ paste table.old to (drop from table.old) (blocks * move_block) }
{
    for k in (0..blocks).rev() {
        move_block(table, to + k * BLOCK, from + k * BLOCK);
    }
}

// len words from `from` on go down to `to`: whole blocks, then the words behind them.
pub fn move_down(table: &mut [u64], to: usize, from: usize, len: usize)
    requires { (to ≤ from) × (from + len ≤ length table.old) }
    ensures { table.new ≡ paste table.old to (drop from table.old) len }
{
    let blocks = len / BLOCK;
    let moved = blocks * BLOCK;
    blocks_down(table, to, from, blocks);
    table.copy_within(from + moved..from + len, to + moved);
}

// len words from `from` on go up to `to`: whole blocks at the end, then the words before them.
pub fn move_up(table: &mut [u64], to: usize, from: usize, len: usize)
    requires { (from ≤ to) × (to + len ≤ length table.old) }
    ensures { table.new ≡ paste table.old to (drop from table.old) len }
{
    let left = len % BLOCK;
    blocks_up(table, to + left, from + left, len / BLOCK);
    table.copy_within(from..from + left, to);
}

// len words from `from` on become 0.
pub fn clear(table: &mut [u64], from: usize, len: usize)
    requires { from + len ≤ length table.old }
    ensures { table.new ≡ paste table.old from (replicate len 0) len }
{
    table[from..from + len].fill(0);
}

// Every word becomes 0, one by one: of `fill` the compiler does not see that no other word is left, and over an area, whose local table is 0 already, an
// opening for 1,024 entries took eight times as long.
pub fn clear_all(table: &mut [u64])
    ensures { table.new ≡ replicate (length table.old) 0 }
{
    for k in 0..table.len() {
        table[k] = 0;
    }
}
