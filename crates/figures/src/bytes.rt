// Bytes as hexadecimal text: two digits to a byte, the higher one first.
ghost use Rattle.std.specs.Prelude.{◌≡◌, true, IfSome, ◌/◌, ◌≤◌, ◌<◌, length};
ghost use Rattle.std.proofs.Math.Seq.{paste};
ghost use Rattle.script.specs.Line.{every};
ghost use Rattle.figures.specs.Hex.{no_nibble, nibble_said, nibbleb, hexb, bytes_said, glyph_of};

const BASE: u8 = 16;

// The value of a hexadecimal digit, small or capital, if the byte is one.
#[tactic(auto, unfolding(crate::specs::Hex::nibble_of))]
pub fn nibble(byte: u8) -> Option<u8>
    ensures value { result ≡ nibble_said byte }
    ensures below { IfSome result (λ v. v < no_nibble) }
{
    match byte {
        b'0'..=b'9' => Some(byte - b'0'),
        b'A'..=b'F' => Some(byte - b'A' + 10),
        b'a'..=b'f' => Some(byte - b'a' + 10),
        _ => None,
    }
}

// Whether every byte is a hexadecimal digit.
pub fn are_nibbles(word: &[u8]) -> bool
    ensures { result ≡ every nibbleb word.now }
{
    word.iter().all(|byte| nibble(*byte).is_some())
}

// Whether a word says bytes.
pub fn is_hex(word: &[u8]) -> bool
    ensures { result ≡ hexb word.now }
{
    word.len() % 2 == 0 && are_nibbles(word)
}

// The bytes that a word says, laid to the front of `out`.
pub fn unhex(word: &[u8], out: &mut [u8])
    requires { (hexb word.now ≡ true) × (length word.now / 2 ≤ length out.old) }
    ensures { out.new ≡ paste out.old 0 (bytes_said word.now) (length word.now / 2) }
{
    for i in 0..word.len() / 2 {
        out[i] = nibble(word[i * 2]).unwrap() * BASE + nibble(word[i * 2 + 1]).unwrap();
    }
}

// The digit of a value, in small letters.
pub fn digit(value: u8) -> u8
    requires { value < 16 }
    ensures { result ≡ glyph_of value }
{
    if value < 10 {
        b'0' + value
    } else {
        b'a' + (value - 10)
    }
}
