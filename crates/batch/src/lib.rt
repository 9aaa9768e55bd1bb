// The batch: a lent table of actions, an identity and a payload each.
#![tactic(auto)]

ghost use Rattle.std.specs.Prelude.{◌≡◌, eqb, ◌%◌};
ghost use Rattle.batch.specs.Batch.{table_words, pairs_in, stored};

// The most actions of a transaction.
pub const LIMIT: usize = 64;

// The words of the table: an identity at 2i and a payload at 2i + 1.
pub const WORDS: usize = 2 * LIMIT;

// Whether a table of n words has the size of one.
pub fn is_sized(n: usize) -> bool
    ensures { result ≡ eqb n table_words }
{
    n == WORDS
}

// Whether n words are pairs.
pub fn are_pairs(n: usize) -> bool
    ensures { result ≡ eqb (n % 2) 0 }
{
    n % 2 == 0
}

// The pairs over the first of the table, where they fit.
pub fn put_pairs(table: &mut [u64], pairs: &[u64])
    ensures { table.new ≡ pairs_in pairs.now table.old }
{
    areas::copy(table, pairs);
}

// The payload of one action, where the table has it.
pub fn store(table: &mut [u64], action: u32, payload: u64)
    ensures { table.new ≡ stored action payload table.old }
{
    let at = 2 * (action as usize) + 1;
    // By index: of a slice behind whose `get_mut` was written a proof knows the length alone.
    if at < table.len() {
        table[at] = payload;
    }
}
