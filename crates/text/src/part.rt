// Parts of a slice, whatever the number.
ghost use Rattle.std.specs.Prelude.{◌≡◌, take, drop};

// The first n bytes, or all where there are fewer.
pub fn first(bytes: &[u8], n: usize) -> &[u8]
    ensures { result.now ≡ take n bytes.now }
{
    &bytes[..n.min(bytes.len())]
}

// The same, as a part that can be written.
pub fn first_mut(bytes: &mut [u8], n: usize) -> &mut [u8]
    ensures { result.now ≡ take n bytes.old }
{
    let n = n.min(bytes.len());
    &mut bytes[..n]
}

// The bytes after the first n, none where there are fewer.
pub fn rest(bytes: &[u8], n: usize) -> &[u8]
    ensures { result.now ≡ drop n bytes.now }
{
    &bytes[n.min(bytes.len())..]
}
