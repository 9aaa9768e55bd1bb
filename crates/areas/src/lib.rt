// Lent areas of bytes and words: their size, copying to the front of one, and exchanging two of bytes. Each public function is total:
// what does not fit is left alone.
#![tactic(auto)]

ghost use Rattle.std.specs.Prelude.{◌≡◌, ◌∷◌, [], ◌+◌, ◌≤◌, eqb, length, take, drop};
ghost use Rattle.std.proofs.Math.Seq.{paste};
ghost use Rattle.areas.specs.Areas.{area_size, copied, exchanged};
ghost use Rattle.areas.specs.Blocks.{block_size, part_size};

// The bytes of an accepted, candidate, recovery or exchange area, and the longest payload.
pub const SIZE: usize = 4096;

// So many bytes at most are copied at a time: of the sizes tried the quickest for a whole area.
const PART: usize = 2048;

// So many bytes are exchanged at a time.
const BLOCK: usize = 64;

// Whether an area of n bytes has the size of one.
pub fn is_sized(n: usize) -> bool
    ensures { result ≡ eqb n area_size }
{
    n == SIZE
}

// All elements of src over the first of dst, where they fit: words. For the bytes of a payload `copy_bytes` is quicker.
pub fn copy<T: Copy>(dst: &mut [T], src: &[T])
    ensures { dst.new ≡ copied src.now dst.old }
{
    let n = src.len();
    if n <= dst.len() {
        dst[..n].copy_from_slice(src);
    }
}

// The n bytes of src from a place on over those of dst at the same place, through a local array: all are read before the first is
// written, so that the compiler, which is not told that the two slices lie apart, moves them at once and keeps no array.
fn copy_part(dst: &mut [u8], src: &[u8], at: usize, n: usize)
    requires { (n ≤ part_size) × (at + n ≤ length src.now) × (at + n ≤ length dst.old) }
    ensures { dst.new ≡ paste dst.old at (drop at src.now) n }
{
    let mut part = [0; PART];
    part[..n].copy_from_slice(&src[at..at + n]);
    dst[at..at + n].copy_from_slice(&part[..n]);
}

// All bytes of src over the first of dst, where they fit: a payload.
pub fn copy_bytes(dst: &mut [u8], src: &[u8])
    ensures { dst.new ≡ copied src.now dst.old }
{
    let n = src.len();
    if dst.len() < n {
        return;
    }
    // The last part may be a whole one: for an area two calls are made, not three.
    let parts = n.saturating_sub(1) / PART;
    for k in 0..parts {
        copy_part(dst, src, PART * k, PART);
    }
    let rest = PART * parts;
    copy_part(dst, src, rest, n - rest);
}

// The block of src that starts at a place. Blocks have a number of bytes that the compiler knows, so that it moves them by the
// widest registers that it may use.
fn block_at(src: &[u8], at: usize) -> [u8; BLOCK]
    requires { at + block_size ≤ length src.now }
    ensures { result ≡ take block_size (drop at src.now) }
{
    let mut block = [0; BLOCK];
    block.copy_from_slice(&src[at..at + BLOCK]);
    block
}

// A block over the bytes of dst that start at a place.
fn put_block(dst: &mut [u8], at: usize, block: &[u8; BLOCK])
    requires { at + block_size ≤ length dst.old }
    ensures { dst.new ≡ paste dst.old at block.now block_size }
{
    // By index: with `copy_from_slice` the blocks lie in memory, not in registers, and an exchange takes 2.2 times as long as Rust's, not 0.95.
    for j in 0..BLOCK {
        dst[at + j] = block[j];
    }
}

// The blocks of two areas that start at a place change places. Both are read before the first byte is written: the compiler is not told
// that the areas lie apart, and would otherwise copy a block from the one to the other byte by byte.
fn exchange_blocks(a: &mut [u8], b: &mut [u8], at: usize)
    requires { (at + block_size ≤ length a.old) × (at + block_size ≤ length b.old) }
    ensures { (a.new ≡ paste a.old at (drop at b.old) block_size)
        × (b.new ≡ paste b.old at (drop at a.old) block_size) }
{
    let x = block_at(a, at);
    let y = block_at(b, at);
    put_block(a, at, &y);
    put_block(b, at, &x);
}

// Two areas of one size change places, in blocks through local arrays (request 5); `swap_with_slice` alone has none.
pub fn exchange(a: &mut [u8], b: &mut [u8])
    ensures { a.new ∷ b.new ∷ [] ≡ exchanged a.old b.old }
{
    let n = a.len();
    if b.len() != n {
        return;
    }
    let whole = n / BLOCK;
    for k in 0..whole {
        exchange_blocks(a, b, BLOCK * k);
    }
    let rest = BLOCK * whole;
    a[rest..].swap_with_slice(&mut b[rest..]);
}
