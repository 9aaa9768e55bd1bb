// Digests of bytes and of words. No function asks anything of its caller.
#![tactic(auto)]

ghost use Rattle.std.specs.Prelude.{◌≡◌, ◌<◌, ℕ};
ghost use Rattle.digests.specs.Digesting.{modulus, next, digest_by, digest_of};

const MODULUS: u64 = 4294967291;

// What is digested element by element: a byte or a word, by its number.
trait Element: Copy {
    ghost value: { Self → ℕ };

    // What a digest becomes for it.
    fn digested(self, h: u64) -> u64
        requires { h < modulus }
        ensures { result ≡ next h (value self) };
}

impl Element for u8 {
    ghost value = { λ byte. byte };

    // A byte is under the modulus.
    fn digested(self, h: u64) -> u64 {
        (h * 31 + u64::from(self) + 1) % MODULUS
    }
}

impl Element for u64 {
    ghost value = { λ word. word };

    fn digested(self, h: u64) -> u64 {
        (h * 31 + self % MODULUS + 1) % MODULUS
    }
}

// The digest of the elements, from the first to the last.
fn digest_all<T: Element>(elements: &[T]) -> u64
    ensures { result ≡ digest_by T.value elements.now }
{
    let mut h = 0;
    for element in elements {
        h = element.digested(h);
    }
    h
}

// The digest of the bytes.
pub fn digest(bytes: &[u8]) -> u64
    ensures { result ≡ digest_of bytes.now }
{
    digest_all(bytes)
}

// The digest of the words.
pub fn digest_words(words: &[u64]) -> u64
    ensures { result ≡ digest_of words.now }
{
    digest_all(words)
}
