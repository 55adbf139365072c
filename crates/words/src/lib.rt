// Words, numbers of 64 bits, in bytes, the lowest byte first. The standard library makes a word of eight bytes, and eight bytes of a word, one after the
// other, and not in a loop as `little` does, so that the compiler makes one load or store of them.
#![tactic(auto)]

ghost use Rattle.std.specs.Prelude.{◌≡◌, ◌*◌, ◌≤◌, length};
ghost use Rattle.little.specs.Little.{word_bytes, little, bytes_of, numbers, bytes_of_all};

use little::WORD_BYTES;

// The word that eight bytes are. Taken one by one they become one load; `copy_from_slice` into an array tests for overlap at each word, and with it a
// call over an area took 2.3 times the call over words, where the goal is 1.5 (docs/BENCH.md).
pub fn get_word(b: &[u8]) -> u64
    requires { length b.now ≡ word_bytes }
    ensures { result ≡ little b.now }
{
    u64::from_le_bytes([b[0], b[1], b[2], b[3], b[4], b[5], b[6], b[7]])
}

// Fills eight bytes with the word, one by one: `copy_from_slice` takes twice the instructions.
pub fn put_word(word: u64, out: &mut [u8])
    requires { length out.old ≡ word_bytes }
    ensures { out.new ≡ bytes_of word_bytes word }
{
    let bytes = word.to_le_bytes();
    for k in 0..WORD_BYTES {
        out[k] = bytes[k];
    }
}

// Fills `words` with those that the bytes are, one behind the other: by twos, then the last of an odd number. Both of two are loaded before the
// first is stored, so that the compiler makes a move of 16 bytes of them, and the loop counts the twos, so that it makes several moves a turn.
// Of a loop over single words it makes a call of `memcpy`, which on some processors is many times slower where the target lies just ahead of
// the source, modulo 4,096.
pub fn get_words(bytes: &[u8], words: &mut [u64])
    requires { length words.old * word_bytes ≤ length bytes.now }
    ensures { words.new ≡ numbers word_bytes (length words.old) bytes.now }
{
    let pairs = words.len() / 2;
    for k in 0..pairs {
        let i = k * 2;
        let at = i * WORD_BYTES;
        let next = (i + 1) * WORD_BYTES;
        let a = get_word(&bytes[at..at + WORD_BYTES]);
        let b = get_word(&bytes[next..next + WORD_BYTES]);
        words[i] = a;
        words[i + 1] = b;
    }
    let last = pairs * 2;
    if last < words.len() {
        let at = last * WORD_BYTES;
        words[last] = get_word(&bytes[at..at + WORD_BYTES]);
    }
}

// Fills `out` with the words, one behind the other.
pub fn put_words(words: &[u64], out: &mut [u8])
    requires { length out.old ≡ length words.now * word_bytes }
    ensures { out.new ≡ bytes_of_all word_bytes words.now }
{
    for (i, word) in words.iter().enumerate() {
        let at = i * WORD_BYTES;
        put_word(*word, &mut out[at..at + WORD_BYTES]);
    }
}
