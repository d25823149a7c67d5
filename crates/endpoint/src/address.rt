// Addresses of both families, the blocks of 16 bytes that they are kept as, and when two are the same.
ghost use Rattle.std.specs.Prelude.{◌≡◌, take};
ghost use Rattle.lists.specs.Bytes.{same_bytes};
ghost use Rattle.endpoint.specs.Address.{size, is_size, family_of, is_address, block, same_name};

use lists::copy::copy;

// The family of addresses that is fixed at the start.
#[derive(Clone, Copy, Drop)]
pub enum Family {
    V4,
    V6,
}

// How many bytes an address has.
pub fn size_of(f: Family) -> usize
    ensures { result ≡ size f }
{
    match f {
        Family::V4 => 4,
        Family::V6 => 16,
    }
}

// Whether there is a family whose addresses have n bytes.
pub fn is_size(n: usize) -> bool
    ensures { result ≡ is_size n }
{
    matches!(n, 4 | 16)
}

// The family whose addresses have n bytes; IPv6 where there is none.
pub fn family_of(n: usize) -> Family
    ensures { result ≡ family_of n }
{
    if n == 4 { Family::V4 } else { Family::V6 }
}

pub fn is_address(f: Family, addr: &[u8]) -> bool
    ensures { result ≡ is_address f addr.now }
{
    addr.len() == size_of(f)
}

// The first 16 bytes, followed by zero bytes.
pub fn block_of(addr: &[u8]) -> [u8; 16]
    ensures { result ≡ block (take 16 addr.now) }
{
    let mut b = [0; 16];
    copy(addr, &mut b);
    b
}

// Whether two blocks are the same. Every byte is compared, with no early exit.
pub fn same_block(a: [u8; 16], b: [u8; 16]) -> bool
    ensures { result ≡ same_bytes a b }
{
    let mut same = true;
    for (x, y) in a.iter().zip(&b) {
        same &= x == y;
    }
    same
}

// Whether two names are the same, given their ports and the blocks of their addresses. The ports come first: they tell most names apart.
pub fn same_name(p: u16, q: u16, a: [u8; 16], b: [u8; 16]) -> bool
    ensures { result ≡ same_name p q a b }
{
    p == q && same_block(a, b)
}
