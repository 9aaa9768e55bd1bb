// Text that is written, in lent bytes: a page, of whose bytes the first are in use. What has no room is left out. Nothing here writes a
// file, and no function asks anything of its caller.
#![tactic(auto)]

ghost use Rattle.std.specs.Prelude.{◌≡◌, ◌-◌, take, length};
ghost use Rattle.text.specs.Writing.{page, put_byte, put_all, decimal_of};

// The first n of these, or all where there are fewer.
pub fn front<T>(items: &[T], n: usize) -> &[T]
    ensures { result.now ≡ take n items.now }
{
    if n < items.len() {
        return &items[..n];
    }
    items
}

// Lent bytes, and how many of them are in use. No `fmt::Write`: that fails where there is no room, and here all that has room is put.
#[derive(Drop)]
pub struct Page<'a> {
    bytes: &'a mut [u8],
    written: usize,
}

impl<'a> Page<'a> {
    // Nothing is in use at first.
    pub fn new(bytes: &'a mut [u8]) -> Page<'a>
        ensures { result ≡ page bytes.entry 0 }
    {
        Page::behind(bytes, 0)
    }

    // So many are in use at first. Where it is told more than there are, all there are is in use, and nothing more has room.
    pub fn behind(bytes: &'a mut [u8], written: usize) -> Page<'a>
        ensures { result ≡ page bytes.entry written }
    {
        Page { bytes, written }
    }

    // How many are in use, or the greater number that `behind` was told.
    pub fn written(&self) -> usize
        ensures { result ≡ self.now.written }
    {
        self.written
    }

    pub fn put_byte(&mut self, byte: u8)
        ensures { self.new ≡ put_byte self.old byte }
    {
        if self.written < self.bytes.len() {
            self.bytes[self.written] = byte;
            self.written += 1;
        }
    }

    pub fn put_text(&mut self, text: &[u8])
        ensures { self.new ≡ put_all self.old text.now }
    {
        for byte in text {
            self.put_byte(*byte);
        }
    }

    // The number in decimal, with no zero in front.
    pub fn put_decimal(&mut self, number: u64)
        ensures { self.new ≡ put_all self.old (decimal_of number) }
    {
        let mut digits = [0u8; 20];
        let count = io::decimal(number, &mut digits);
        self.put_text(&digits[..count]);
    }

    // How many bytes more there is room for.
    pub fn room(&self) -> usize
        ensures { result ≡ length self.now.bytes.now - self.now.written }
    {
        self.bytes.len().saturating_sub(self.written)
    }

    // What is in use.
    pub fn filled(&self) -> &[u8]
        ensures { result.now ≡ take self.now.written self.now.bytes.now }
    {
        front(self.bytes, self.written)
    }

    // Nothing is in use any more.
    pub fn clear(&mut self)
        ensures { self.new ≡ page self.old.bytes 0 }
    {
        self.written = 0;
    }
}
