// The option reader (RFC 9293, 3.1; RFC 7413, 4.1.1 and 9).
ghost use Rattle.std.specs.Prelude.{◌≡◌, ◌+◌, ◌-◌, ◌<◌, ◌≤◌, ◌&&◌, length, nat_le, IfSome};
ghost use Rattle.std.specs.Option.{is_some};
ghost use Rattle.segment.specs.Bytes.{byte_at};
ghost use Rattle.segment.specs.Options.{mss_option, is_cookie_length, cookie_at, is_in, counts_coding, codings_of, fast_open_option, is_counted, first_mss, cookie_bytes, coding_of};
ghost use Rattle.segment.specs.Remarks.{no_remarks, is_fast_open, report_with, report_in, report_of};
ghost use Rattle.segment.specs.RemarkSamples.{Agrees};

use crate::header::{has_syn, option_area, part};
use crate::number::word_at;

// The own MSS that an end may be set to lies between these.
pub const LEAST_MSS: u32 = 536;

pub const MOST_MSS: u32 = 1460;

// How a Fast Open option is coded: as kind 34, or in the older way, as kind 254 with F9 89 behind its length.
#[derive(Clone, Copy, Drop)]
pub enum Coding {
    New,
    Older,
}

// The codings that count, a setting.
#[derive(Clone, Copy, Drop)]
pub enum Codings {
    NewOnly,
    Both,
}

// The Fast Open option: none, an empty one that asks for a cookie, or a cookie by its place in the area, which counts from 0.
#[derive(Clone, Copy, Drop)]
pub enum FastOpenOption {
    Absent,
    Request(Coding),
    Cookie {
        coding: Coding,
        at: usize,
        len: usize,
    },
}

// The options that count: the first MSS, and the first Fast Open option in a coding that counts.
#[derive(Clone, Copy, Drop)]
pub struct Options {
    pub mss: Option<u16>,
    pub fast: FastOpenOption,
}

// The first of two, if it was given.
pub fn first_mss(found: Option<u16>, next: Option<u16>) -> Option<u16>
    ensures { result ≡ first_mss found next }
{
    found.or(next)
}

// Whether a cookie may have n bytes.
#[tactic(auto, unfolding(crate::specs::Options::is_cookie_length))]
pub fn is_cookie_length(n: usize) -> bool
    ensures { result ≡ is_cookie_length n }
{
    4 <= n && n <= 16 && n % 2 == 0
}

// An option with n bytes of cookie at a place.
#[tactic(auto, unfolding(crate::specs::Options::cookie_at))]
fn cookie_at(coding: Coding, at: usize, n: usize) -> FastOpenOption
    ensures { result ≡ cookie_at coding at n }
{
    if n == 0 {
        FastOpenOption::Request(coding)
    } else if is_cookie_length(n) {
        FastOpenOption::Cookie { coding, at, len: n }
    } else {
        FastOpenOption::Absent
    }
}

// The codings that count, from whether the older one does.
pub fn codings_of(older: bool) -> Codings
    ensures { result ≡ codings_of older }
{
    if older {
        Codings::Both
    } else {
        Codings::NewOnly
    }
}

fn counts_older(codings: Codings) -> bool
    ensures { result ≡ counts_coding codings Coding.Older }
{
    matches!(codings, Codings::Both)
}

// Whether there is an option.
pub fn is_counted(fast: FastOpenOption) -> bool
    ensures { result ≡ is_counted fast }
{
    !matches!(fast, FastOpenOption::Absent)
}

// What the reader remarks on an area besides the options that count: how many Fast Open options it skipped for a bad length, where the used
// one began, and where the reading broke off at a length that does not fit. Places are a kind byte's and count from 1; 0 is none: they are
// numbers as the replay lines print them.
#[derive(Clone, Copy, Drop)]
pub struct Remarks {
    pub skipped: usize,
    pub used: usize,
    pub broken: usize,
}

// All that the reader reports: the options that count, and its remarks.
#[derive(Clone, Copy, Drop)]
pub struct Report {
    pub options: Options,
    pub remarks: Remarks,
}

// Nothing is remarked.
pub fn no_remarks() -> Remarks
    ensures { result ≡ no_remarks }
{
    Remarks {
        skipped: 0,
        used: 0,
        broken: 0,
    }
}

// An option of an area: `len` bytes from `at` on, its kind and its length first.
#[derive(Clone, Copy, Drop)]
struct Found<'a> {
    area: &'a [u8],
    at: usize,
    len: usize,
    ghost fits: { (2 ≤ len) × (at + len ≤ length area.now) },
}

impl Found<'_> {
    // The segment size that it gives, if it is an MSS that counts.
    #[tactic(auto, unfolding(crate::specs::Options::is_mss_option, crate::specs::Options::mss_option))]
    fn mss(self) -> Option<u16>
        ensures { result ≡ mss_option self.entry.area.now self.entry.at self.entry.len }
    {
        if self.area[self.at] == 2 && self.len == 4 {
            Some(word_at(self.area, self.at + 2))
        } else {
            None
        }
    }

    // Whether it is in the older coding. Kind 254 is every experiment's.
    #[tactic(auto, unfolding(crate::specs::Options::is_in))]
    fn is_older(self) -> bool
        ensures { result ≡ is_in Coding.Older self.entry.area.now self.entry.at self.entry.len }
    {
        let Found { area, at, len } = self;
        area[at] == 254 && 4 <= len && area[at + 2] == 0xF9 && area[at + 3] == 0x89
    }

    // Whether it is a Fast Open option in a coding that counts, whatever its length.
    #[tactic(auto, unfolding(crate::specs::Remarks::is_fast_open, crate::specs::Options::is_in))]
    fn is_fast_open(self, codings: Codings) -> bool
        ensures { result ≡ is_fast_open codings self.entry.area.now self.entry.at self.entry.len }
    {
        let kind = self.area[self.at];
        kind == 34 || counts_older(codings) && self.is_older()
    }

    // The Fast Open option that it is, if it counts.
    #[tactic(auto, unfolding(crate::specs::Options::fast_open_option, crate::specs::Options::option_in, crate::specs::Options::is_in))]
    fn fast_open(self, codings: Codings) -> FastOpenOption
        ensures { result ≡ fast_open_option codings self.entry.area.now self.entry.at self.entry.len }
    {
        let Found { area, at, len } = self;
        if area[at] == 34 {
            cookie_at(Coding::New, at + 2, len - 2)
        } else if counts_older(codings) && self.is_older() {
            cookie_at(Coding::Older, at + 4, len - 4)
        } else {
            FastOpenOption::Absent
        }
    }
}

// The option at a place; none where its length byte is missing, is less than 2, or goes past the area.
fn option_at(area: &[u8], at: usize) -> Option<Found<'_>>
    requires { at < length area.now }
    ensures variant { is_some result ≡ (nat_le 2 (byte_at area.now (at + 1)) && nat_le (byte_at area.now (at + 1)) (length area.now - at)) }
    ensures found { IfSome result (λ o. (o.area.now ≡ area.now) × (o.at ≡ at) × (o.len ≡ byte_at area.now (at + 1))) }
{
    let len = *area.get(at + 1)? as usize;
    if 2 <= len && len <= area.len() - at {
        Some(Found { area, at, len })
    } else {
        None
    }
}

// The segment size that is used, with an option besides: it is looked for until one is found.
fn with_mss(found: Option<u16>, option: Found<'_>) -> Option<u16>
    ensures { result ≡ first_mss found (mss_option option.entry.area.now option.entry.at option.entry.len) }
{
    if found.is_some() {
        return found;
    }
    first_mss(found, option.mss())
}

// What is reported so far, with an option besides: the first of each that counts is used.
#[tactic(auto, using(crate::proofs::Remarks::other_option, crate::proofs::Remarks::other_remark))]
fn with_option(mut found: Report, codings: Codings, option: Found<'_>) -> Report
    requires skipped { found.remarks.skipped ≤ option.at }
    requires agrees { Agrees found.options.fast found.remarks.used }
    ensures { result ≡ report_with codings option.entry.area.now found option.entry.at option.entry.len }
{
    found.options.mss = with_mss(found.options.mss, option);
    if option.is_fast_open(codings) {
        let fast = option.fast_open(codings);
        if !is_counted(fast) {
            found.remarks.skipped += 1;
        } else if found.remarks.used == 0 {
            found.remarks.used = option.at + 1;
            found.options.fast = fast;
        }
    }
    found
}

// Reads an option area. Where a length does not fit, the reading breaks off and what was found before stands.
pub fn read_options(codings: Codings, area: &[u8]) -> Report
    ensures { result ≡ report_in codings area.now }
{
    let mut found = Report {
        options: Options {
            mss: None,
            fast: FastOpenOption::Absent,
        },
        remarks: no_remarks(),
    };
    let mut at = 0;
    while at < area.len() {
        match area[at] {
            0 => return found,
            1 => at += 1,
            _ => {
                let Some(option) = option_at(area, at) else {
                    found.remarks.broken = at + 1;
                    return found;
                };
                found = with_option(found, codings, option);
                at += option.len;
            }
        }
    }
    found
}

// Reads the options of a segment: without SYN no Fast Open option counts and nothing is remarked, and a malformed segment has no options.
pub fn segment_options(codings: Codings, seg: &[u8]) -> Report
    ensures { result ≡ report_of codings seg.now }
{
    let found = read_options(codings, option_area(seg));
    if has_syn(seg) {
        found
    } else {
        Report {
            options: Options {
                mss: found.options.mss,
                fast: FastOpenOption::Absent,
            },
            remarks: no_remarks(),
        }
    }
}

// The bytes of the cookie that was found in this area, as a part of it; empty where none was.
pub fn cookie(area: &[u8], fast: FastOpenOption) -> &[u8]
    ensures { result.now ≡ cookie_bytes fast area.now }
{
    match fast {
        FastOpenOption::Cookie { at, len, .. } => part(area, at, len),
        FastOpenOption::Request(_) | FastOpenOption::Absent => &[],
    }
}

// The coding of the option that was found; where there is none, the new one.
pub fn coding_of(fast: FastOpenOption) -> Coding
    ensures { result ≡ coding_of fast }
{
    match fast {
        FastOpenOption::Absent => Coding::New,
        FastOpenOption::Request(coding) => coding,
        FastOpenOption::Cookie { coding, .. } => coding,
    }
}
