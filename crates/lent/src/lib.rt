// Words of 32 bits in lent memory: they are stored where there is room for them, and one is read as a place or a count.
//   store        puts one word at a place, where there is room
//   store_all    puts words from a place on, as far as there is room
//   wide         a word as a place or a count
// Each takes any words and any place. Rests on facts.
#![tactic(auto)]

ghost use Rattle.std.specs.Prelude.{◌≡◌, set};
ghost use Rattle.std.proofs.lemmas.List.Edits.{sets};

// Puts one word; a place past the end changes nothing.
pub fn store(words: &mut [u32], at: usize, word: u32)
    ensures { words.new ≡ set words.old at word }
{
    if at < words.len() {
        words[at] = word;
    }
}

// Puts the words of `from`, the first of them at place `at`; those past the end change nothing.
pub fn store_all(words: &mut [u32], at: usize, from: &[u32])
    ensures { words.new ≡ sets words.old at from.now }
{
    // `copy_from_slice` calls `memmove`, which the archive does without, and is slower for short runs.
    let count = from.len().min(words.len().saturating_sub(at));
    for i in 0..count {
        words[at + i] = from[i];
    }
}

// A word as a place or a count.
pub fn wide(word: u32) -> usize
    ensures { result ≡ word }
{
    word as usize
}
