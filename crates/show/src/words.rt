// Two slices of words, compared word by word.
ghost use Rattle.std.specs.Prelude.{◌≡◌};
ghost use Rattle.show.specs.Words.{agreed};

use std::io::Stdout;

// The index of the first word that differs; the length of the shorter one, where there is none.
pub fn agreeing(a: &[u64], b: &[u64]) -> usize
    ensures { result ≡ agreed a.now b.now }
{
    a.iter().zip(b).take_while(|(x, y)| **x == **y).count()
}

// The first word that differs.
pub fn say_difference(stdout: Stdout, a: &[u64], b: &[u64]) {
    let _ = println!(stdout; "the first word that differs is word {}", agreeing(a, b));
}

// That every word agrees, or the first one that differs.
pub fn say_agreement(stdout: Stdout, a: &[u64], b: &[u64]) {
    if a == b {
        let _ = println!(stdout; "every word agrees");
        return;
    }
    say_difference(stdout, a, b);
}
