// Making module files: words as bytes, and groups with their check words.
ghost use Rattle.std.specs.Prelude.{◌≡◌, [], ◌∷◌, ◌++◌, IfOk, OnOk};
ghost use Rattle.std.specs.List.{flat_map};
ghost use Rattle.library.specs.Check.{xor_all};
ghost use Rattle.library.specs.Laws.{Holds, ReadsBack};
ghost use Rattle.library.specs.ModuleFile.{group_words, word_bytes};

use crate::check::xor_all;
use std::alloc::{AllocError, Global};

// One word more, its most significant byte first. Written out in the loop of `to_bytes` it takes 1.7 times as long.
fn push_word(bytes: &mut Vec<u8>, word: u32) -> Result<(), AllocError>
    ensures { OnOk result (bytes.new.items ≡ bytes.old.items ++ word_bytes word) }
{
    bytes.extend_from_slice(&word.to_be_bytes())
}

// The bytes of an image that holds `words`.
#[tactic(auto, using(crate::proofs::Joins::one_more))]
pub fn to_bytes(heap: Global, words: &[u32]) -> Result<Vec<u8>, AllocError>
    ensures items { IfOk result (λ v. v.items ≡ flat_map word_bytes words.now) }
    ensures holds { IfOk result (λ v. Holds v.items words.now) }
{
    let mut bytes = Vec::new(heap);
    for word in words {
        push_word(&mut bytes, *word)?;
    }
    Ok(bytes)
}

// Each group of eight words with its check word. Its loop is that of `to_bytes` but for the body,
// and a function of both would have a longer contract, of the closure that it calls.
#[tactic(auto, using(crate::proofs::Joins::one_more))]
pub fn with_check_words(heap: Global, groups: &[[u32; 8]]) -> Result<Vec<u32>, AllocError>
    ensures items { IfOk result (λ v. v.items ≡ flat_map group_words groups.now) }
    ensures reads_back { IfOk result (λ v. ReadsBack groups.now v.items) }
{
    let mut words = Vec::new(heap);
    for group in groups {
        words.extend_from_slice(group)?;
        words.push(xor_all(group))?;
    }
    Ok(words)
}
