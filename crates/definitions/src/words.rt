// The words that begin the lines of a definition.
ghost use Rattle.std.specs.Prelude.{◌≡◌, ℕ, ◌==◌};
ghost use Rattle.definitions.specs.Lines.{word_at, fields_of};

use kinds::behind::has_fields_behind;
use kinds::kind::Kind;

#[derive(Clone, Copy, Debug, PartialEq, Eq)]
pub enum Word {
    Chronicle,
    Var,
    Bound,
    End,
}

// The word of line `number`: the first line, and no other, begins a definition.
pub fn word_at(number: usize, field: &[u8]) -> Option<Word>
    ensures { result ≡ word_at number field.now }
{
    if number == 1 {
        (field == b"chronicle".as_slice()).then_some(Word::Chronicle)
    } else if field == b"var".as_slice() {
        Some(Word::Var)
    } else if field == b"bound".as_slice() {
        Some(Word::Bound)
    } else if field == b"end".as_slice() {
        Some(Word::End)
    } else {
        None
    }
}

// Whether a line of that word has so many fields.
pub fn has_fields<K: Kind>(word: Word, count: usize) -> bool
    ensures { result ≡ (count == fields_of K.fields word) }
{
    match word {
        Word::Chronicle | Word::Var => count == 2,
        Word::Bound => has_fields_behind::<K>(3, count),
        Word::End => count == 1,
    }
}
