// The bytes of a file as u64 words, lowest byte first. Nothing here reads a file, and no function that others call asks anything of its
// caller: words that have no place among those that are lent are left out, and so are bytes that make no whole word.
#![tactic(auto)]

ghost use Rattle.std.specs.Prelude.{◌≡◌};
ghost use Rattle.file_words.specs.Words.{read};

// The bytes of a word.
pub const WORD: usize = 8;

// The whole words of the bytes, over the first words that are lent.
pub fn read(words: &mut [u64], bytes: &[u8])
    ensures { words.new ≡ read bytes.now words.old }
{
    let (chunks, _) = bytes.as_chunks::<WORD>();
    // A range, not `iter_mut().zip(chunks)`: once such a borrow is over, a proof knows nothing of the elements.
    for i in 0..words.len().min(chunks.len()) {
        words[i] = u64::from_le_bytes(chunks[i]);
    }
}
