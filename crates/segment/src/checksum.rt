// The checksum (RFC 1071; RFC 9293, 3.1).
ghost use Rattle.std.specs.Prelude.{◌≡◌, ◌+◌, ◌*◌, ◌<◌, ◌≤◌, true, length, drop};
ghost use Rattle.segment.specs.Checksum.{ones_sum, one_family, pseudo_header, checksum_right};
ghost use Rattle.segment.specs.Totals.{swapped, swapped_at, total, most_total, pass_total, lanes_total, folded};

// How many bytes are added up before the carries are added too: an even number, whose words come to less than 2^32.
const RUN: usize = 65536;

// How many bytes a pass takes: a word for each lane of two registers.
const PASS: usize = 16;

// Fewer bytes than these are added word by word: passes do not pay for them.
const SHORT: usize = 8 * PASS;

// Four totals side by side, which the compiler keeps in one vector register.
#[derive(Clone, Copy, Drop)]
struct Lanes {
    a: u32,
    b: u32,
    c: u32,
    d: u32,
}

// A total with its carries added at the low end.
fn fold(total: u32) -> u16
    ensures { result ≡ folded total }
{
    let t = total % 65536 + total / 65536;
    (t % 65536 + t / 65536) as u16
}

// The word at a place of a pass, its bytes swapped, as a little-endian machine reads it: so the compiler reads many at once.
fn swapped_at(pass: &[u8; PASS], i: usize) -> u32
    requires { i + 2 ≤ 16 }
    ensures { result ≡ swapped_at pass.now i }
{
    u32::from(pass[i]) + 256 * u32::from(pass[i + 1])
}

// Half a pass: four words, one to each lane.
#[tactic(auto, unfolding(crate::specs::Totals::pass_total))]
fn add_words(l: Lanes, pass: &[u8; PASS], i: usize) -> Lanes
    requires { (i + 8 ≤ 16) × (lanes_total l + pass_total 4 pass.now i ≤ most_total) }
    ensures { lanes_total result ≡ lanes_total l + pass_total 4 pass.now i }
{
    Lanes {
        a: l.a + swapped_at(pass, i),
        b: l.b + swapped_at(pass, i + 2),
        c: l.c + swapped_at(pass, i + 4),
        d: l.d + swapped_at(pass, i + 6),
    }
}

// What the lanes come to together.
fn joined(l: Lanes) -> u32
    requires { lanes_total l ≤ most_total }
    ensures { result ≡ lanes_total l }
{
    l.a + l.b + l.c + l.d
}

// A few words, or those that are left, an odd last byte padded with a zero.
fn total_of_rest(s: &[u8]) -> u32
    requires { total s.now ≤ most_total }
    ensures { result ≡ total s.now }
{
    let (words, odd) = s.as_chunks::<2>();
    let mut sum: u32 = 0;
    for word in words {
        sum += u32::from(word[0]) + 256 * u32::from(word[1]);
    }
    if odd.len() == 1 {
        sum += u32::from(odd[0]);
    }
    sum
}

// The words of `s` added up with their carries put off, eight in a pass.
fn total_of(s: &[u8]) -> u32
    requires { total s.now ≤ most_total }
    ensures { result ≡ total s.now }
{
    if s.len() < SHORT {
        return total_of_rest(s);
    }
    let none = Lanes {
        a: 0,
        b: 0,
        c: 0,
        d: 0,
    };
    let (passes, rest) = s.as_chunks::<PASS>();
    let mut first = none;
    let mut second = none;
    for pass in passes {
        first = add_words(first, pass, 0);
        second = add_words(second, pass, 8);
    }
    joined(first) + joined(second) + total_of_rest(rest)
}

// The words of at most RUN bytes added to a sum: as swapped words, since the sum of those is the sum swapped.
fn add_run(sum: u16, s: &[u8]) -> u16
    requires { length s.now ≤ 65536 }
    ensures { result ≡ ones_sum sum s.now }
{
    fold(u32::from(sum.swap_bytes()) + total_of(s)).swap_bytes()
}

// The words of `s` added to a sum, an odd last byte padded with a zero.
pub fn add_bytes(sum: u16, s: &[u8]) -> u16
    ensures { result ≡ ones_sum sum s.now }
{
    let mut acc = sum;
    for run in s.chunks(RUN) {
        acc = add_run(acc, run);
    }
    acc
}

// Whether two addresses are both IPv4's or both IPv6's.
pub fn is_one_family(src: &[u8], dst: &[u8]) -> bool
    ensures { result ≡ one_family src.now dst.now }
{
    src.len() == dst.len() && matches!(src.len(), 4 | 16)
}

// TCP's number among the protocols.
const PROTOCOL: u8 = 6;

// The sum of the pseudo-header of a segment of `len` bytes.
pub(crate) fn pseudo_sum(src: &[u8], dst: &[u8], len: usize) -> u16
    requires { one_family src.now dst.now ≡ true }
    ensures { result ≡ ones_sum 0 (pseudo_header src.now dst.now len) }
{
    let sum = add_bytes(add_bytes(0, src), dst);
    let [_, _, _, _, a, b, c, d] = len.to_be_bytes();
    if src.len() == 4 {
        add_bytes(sum, &[0, PROTOCOL, c, d])
    } else {
        add_bytes(sum, &[a, b, c, d, 0, 0, 0, PROTOCOL])
    }
}

// Whether the checksum of a segment between two addresses is right.
#[tactic(auto, using(crate::proofs::OneFamily::right_sum), unfolding(crate::specs::Checksum::checksum_right))]
pub fn is_checksum_right(src: &[u8], dst: &[u8], seg: &[u8]) -> bool
    ensures { result ≡ checksum_right src.now dst.now seg.now }
{
    is_one_family(src, dst) && add_bytes(pseudo_sum(src, dst, seg.len()), seg) == 65535
}
