// A byte searched for.
ghost use Rattle.std.specs.Prelude.{◌≡◌, ◌<◌, eqb, length, position, unwrap_or, IfSome};
ghost use Rattle.lists.specs.Lists.{first_index};

// The place of the first such byte, if there is one.
pub fn find(bytes: &[u8], b: u8) -> Option<usize>
    ensures place { result ≡ position (λ x. eqb x b) bytes.now }
    ensures first { unwrap_or result (length bytes.now) ≡ first_index (λ x. eqb x b) bytes.now }
    ensures within { IfSome result (λ i. i < length bytes.now) }
{
    bytes.iter().position(|x| *x == b)
}
