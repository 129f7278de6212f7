ghost use Rattle.std.specs.Prelude.{◌≡◌, ◌++◌, IfOk, OnOk};
ghost use Rattle.std.specs.List.{flat_map};
ghost use Rattle.word_index.specs.Tokens.{tokens_of};
ghost use Rattle.field_indexes.specs.Words.{words_in};

use doc_types::{FieldValue, TextList};
use std::alloc::Global;
use value_lists::{NoMemory, TextValue, TryCopy};
use word_index::tokens;

/// Copies of some texts behind others.
fn push_all(alloc: Global, texts: &mut Vec<TextValue>, more: &[TextValue]) -> Result<(), NoMemory>
    ensures { OnOk result (texts.new.items ≡ texts.old.items ++ more.now) }
{
    for text in more {
        texts.push(text.copy(alloc)?)?;
    }
    Ok(())
}

/// The words of some texts, one after the other.
fn words_of_all(alloc: Global, texts: &[TextValue]) -> Result<TextList, NoMemory>
    ensures { IfOk result (λ words. words ≡ flat_map tokens_of texts.now) }
{
    let mut words = Vec::new(alloc);
    for text in texts {
        let more = tokens(alloc, text.text())?;
        push_all(alloc, &mut words, more.items())?;
    }
    Ok(TextList::of(words))
}

/// The words of a value.
pub fn words_in(alloc: Global, value: &FieldValue) -> Result<TextList, NoMemory>
    ensures { IfOk result (λ words. words ≡ words_in value.now) }
{
    match value {
        FieldValue::Int(_) => Ok(TextList::of(Vec::new(alloc))),
        FieldValue::Text(text) => tokens(alloc, text.text()),
        FieldValue::Ints(_) => Ok(TextList::of(Vec::new(alloc))),
        FieldValue::Texts(texts) => words_of_all(alloc, texts.items()),
    }
}
