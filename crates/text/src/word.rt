// The words of a line, each ended by one space or by the line's end.
ghost use Rattle.std.specs.Prelude.{◌≡◌};
ghost use Rattle.lists.specs.Bytes.{same_bytes};
ghost use Rattle.text.specs.Word.{spaces, word_at};
ghost use Rattle.text.specs.Argument.{is_call};

// How many spaces a line has: one less than its words.
pub fn space_count(line: &[u8]) -> usize
    ensures { result ≡ spaces line.now }
{
    line.iter().filter(|b| **b == b' ').count()
}

// The word at a place, counted from 0, as a part of the line; empty where there is none, or where two spaces meet.
pub fn word_at(line: &[u8], place: usize) -> &[u8]
    ensures { result.now ≡ word_at place line.now }
{
    line.split(|b| *b == b' ').nth(place).unwrap_or(b"")
}

// Whether two words are the same.
#[tactic(auto, using(crate::proofs::AsStd::same_pairs))]
pub fn is_word(word: &[u8], name: &[u8]) -> bool
    ensures { result ≡ same_bytes word.now name.now }
{
    word == name
}

// Whether a line is this call, by its first word and its spaces.
pub fn is_call(line: &[u8], name: &[u8], spaces: usize) -> bool
    ensures { result ≡ is_call name.now spaces line.now }
{
    is_word(word_at(line, 0), name) && space_count(line) == spaces
}
