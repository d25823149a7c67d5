// The list of differences, in lent room: an entry is two numbers, which pair it is and the place.
ghost use Rattle.std.specs.Prelude.{◌≡◌, length};
ghost use Rattle.comparison.specs.Listing.{fresh, noted, list_with, counted, tallied, list_then};

// How many pairs were looked at, the unpaired ones with them; how many entries are listed, and how many more there are.
#[derive(Clone, Copy, Drop)]
pub struct Tally {
    pub pairs: u64,
    pub listed: usize,
    pub remaining: u64,
}

pub(crate) fn new_tally() -> Tally
    ensures { result ≡ fresh }
{
    Tally {
        pairs: 0,
        listed: 0,
        remaining: 0,
    }
}

// Lists the pair at hand where a whole entry fits, and else counts it.
// (The two numbers are set one by one: std says nothing of a slice once its parts were lent by `as_chunks_mut`.)
#[tactic(auto, unfolding(crate::specs::Listing::noted, crate::specs::Listing::list_with))]
fn note(list: &mut [u64], t: Tally, place: u64) -> Tally
    ensures value { result ≡ noted (length list.old) t }
    ensures list_after { list.new ≡ list_with t place list.old }
{
    if t.listed < list.len() / 2 {
        list[2 * t.listed] = t.pairs;
        list[2 * t.listed + 1] = place;
        return Tally {
            listed: t.listed + 1,
            ..t
        };
    }
    Tally {
        remaining: t.remaining.wrapping_add(1),
        ..t
    }
}

fn count_pair(t: Tally) -> Tally
    ensures { result ≡ counted t }
{
    Tally {
        pairs: t.pairs.wrapping_add(1),
        ..t
    }
}

// Takes the difference of the pair at hand, and goes on to the next pair.
pub(crate) fn take_difference(list: &mut [u64], t: Tally, d: Option<u64>) -> Tally
    ensures value { result ≡ tallied (length list.old) t d }
    ensures list_after { list.new ≡ list_then t d list.old }
{
    match d {
        None => count_pair(t),
        Some(place) => count_pair(note(list, t, place)),
    }
}
