ghost use Rattle.std.specs.Prelude.{◌≡◌, ◌≢◌, ℕ, List, true, if◌then◌else◌, OnOk, OnErr};
ghost use Rattle.std.specs.List.{Contains};
ghost use Rattle.local_ids.specs.Rising.{IsRising, with_local, without_local, moved_local};
ghost use Rattle.word_index.specs.Index.{list_of};
ghost use Rattle.field_indexes.specs.Words.{has_word};

use std::alloc::Global;
use value_lists::{NoMemory, TextValue};
use word_index::WordIndex;

/// A document has some words no more.
pub fn drop_words(words: &mut WordIndex, tokens: &[TextValue], local: u32)
    requires { (word : List ℕ) → IsRising (list_of word words.old) }
    ensures { (word : List ℕ) → list_of word words.new
        ≡ (if has_word word tokens.now then without_local local (list_of word words.old)
        else list_of word words.old) }
{
    for at in 0..tokens.len() {
        words.remove(tokens[at].text(), local);
    }
}

/// A document has some words that it lacked.
pub fn add_words(
    alloc: Global,
    words: &mut WordIndex,
    tokens: &[TextValue],
    local: u32,
) -> Result<(), NoMemory>
    requires rising { (word : List ℕ) → IsRising (list_of word words.old) }
    requires lack { (word : List ℕ) → has_word word tokens.now ≡ true
        → Contains (list_of word words.old) local → ⊥ }
    ensures ok { OnOk result ((word : List ℕ) → list_of word words.new
        ≡ (if has_word word tokens.now then with_local local (list_of word words.old)
        else list_of word words.old)) }
    ensures err { OnErr result ((word : List ℕ) → list_of word words.new ≡ list_of word words.old) }
{
    for at in 0..tokens.len() {
        if let Err(fault) = words.add(alloc, tokens[at].text(), local) {
            drop_words(words, &tokens[..at], local);
            return Err(fault);
        }
    }
    Ok(())
}

/// A document that has some words has another local id from now on.
pub fn move_words(words: &mut WordIndex, tokens: &[TextValue], from: u32, to: u32)
    requires rising { (word : List ℕ) → IsRising (list_of word words.old) }
    requires other { to ≢ from }
    ensures { (word : List ℕ) → list_of word words.new
        ≡ (if has_word word tokens.now then moved_local from to (list_of word words.old)
        else list_of word words.old) }
{
    for at in 0..tokens.len() {
        words.move_id(tokens[at].text(), from, to);
    }
}
