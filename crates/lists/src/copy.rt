// Bytes copied to the start of others.
ghost use Rattle.std.specs.Prelude.{◌≡◌, ◌≤◌, length, min, take};
ghost use Rattle.lists.specs.Bytes.{overwrite};

// Copies bytes over the start of others, as many as these have room for, and returns how many.
pub fn copy(src: &[u8], dst: &mut [u8]) -> usize
    ensures count { result ≡ min (length src.now) (length dst.old) }
    ensures copied { dst.new ≡ overwrite (take (length dst.old) src.now) dst.old }
    ensures whole { length src.now ≤ length dst.old → (result ≡ length src.now) × (dst.new ≡ overwrite src.now dst.old) }
{
    let n = usize::min(src.len(), dst.len());
    dst[..n].copy_from_slice(&src[..n]);
    n
}
