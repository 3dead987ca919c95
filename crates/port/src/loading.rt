// Putting many words: into the open partition, and into one that is opened for them.
ghost use Rattle.std.specs.Prelude.{◌≡◌, ℕ, min, List, ◌++◌, length, take, is_some, MatchOption};
ghost use Rattle.port.specs.Load.{Loaded, after_puts, space_of};
ghost use Rattle.port.specs.Meaning.{opens};
ghost use Rattle.port.specs.Steps.{OpenList, Since, Untouched};

use crate::port::Port;

// Puts the words in order until one is refused, and tells how many were taken.
pub fn put_all<P: Port>(port: &mut P, words: &[u32]) -> usize
    ensures count { result ≡ min (space_of (P.Port.means port.old)) (length words.now) }
    ensures after { P.Port.means port.new ≡ after_puts (take result words.now) (P.Port.means port.new).spent (P.Port.means port.old) }
    ensures open_list { (s : ℕ) (ws : List ℕ) → Since s ws (P.Port.means port.old) → (P.Port.means port.new).words s ≡ ws ++ take result words.now }
    ensures histories { OpenList }
    ensures untouched { Untouched }
    ensures none { result ≡ 0 → P.Port.means port.new ≡ P.Port.means port.old }
{
    // A loop, since each word changes the port, which a chain's closure would hide from the proof.
    for (i, word) in words.iter().enumerate() {
        if port.put(*word).is_err() {
            return i;
        }
    }
    words.len()
}

// Opens partition `s`, puts the words in order until one is refused, and closes it.
// Tells how many were taken, or nothing where the partition could not be opened.
pub fn load<P: Port>(port: &mut P, s: u32, words: &[u32]) -> Option<usize>
    ensures answer { is_some result ≡ opens (P.Port.means port.old) s }
    ensures after { MatchOption result (P.Port.means port.new ≡ P.Port.means port.old) (λ n. Loaded s words.now n (P.Port.means port.old) (P.Port.means port.new)) }
{
    port.open(s).ok()?;
    let count = put_all(port, words);
    // The partition is open, so this is never refused.
    let _ = port.close();
    Some(count)
}
