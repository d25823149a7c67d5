// The Fast Open cookie: made, and checked for an opening.
#![tactic(auto)]

ghost use Rattle.std.specs.Prelude.{◌≡◌};
ghost use Rattle.protocol.specs.Cookie.{cookie, cookie_under, found};
ghost use Rattle.cookie.specs.Check.{option_check};

use cipher::{encrypt, encrypt_until, first_half, is_half};
use protocol::state::Keys;
use segment::options::{FastOpenOption, cookie};

// The cookie of an address, by its block, under a key's round keys.
pub fn make_cookie(round_keys: [u8; 176], b: [u8; 16]) -> [u8; 8]
    ensures { result ≡ cookie_under round_keys b }
{
    first_half(encrypt(round_keys, b))
}

// What is made of an opening's Fast Open option: whether its cookie is right, and the fresh one that is to go with the SYN-ACK, if any.
#[derive(Clone, Copy, Drop)]
pub struct OptionCheck {
    pub right: bool,
    pub fresh: Option<[u8; 8]>,
}

// Checks a cookie that was given: it is right under the present key or, if there is one, under the previous key; any but the present key's
// gets a fresh one. The second block is computed only where the first did not settle it.
fn check_cookie(keys: Keys, b: [u8; 16], given: &[u8]) -> OptionCheck
    ensures { result ≡ option_check keys b (cookie given.now) }
{
    let Some(previous) = keys.previous else {
        let only = make_cookie(keys.present, b);
        let right = is_half(given, only);
        return OptionCheck {
            right,
            fresh: (!right).then_some(only),
        };
    };
    let made = encrypt_until(given, keys.present, previous, b);
    let new = first_half(made.first);
    let current = is_half(given, new);
    OptionCheck {
        right: current || is_half(given, first_half(made.second)),
        fresh: (!current).then_some(new),
    }
}

// What is made of the option that was found in an area.
#[tactic(auto, using(crate::proofs::CheckOption::option_none, crate::proofs::CheckOption::option_request))]
pub fn check_option(keys: Keys, b: [u8; 16], area: &[u8], fast: FastOpenOption) -> OptionCheck
    ensures { result ≡ option_check keys b (found fast area.now) }
{
    match fast {
        FastOpenOption::Absent => OptionCheck {
            right: false,
            fresh: None,
        },
        FastOpenOption::Request(_) => {
            let new = make_cookie(keys.present, b);
            OptionCheck {
                right: false,
                fresh: Some(new),
            }
        }
        FastOpenOption::Cookie { .. } => check_cookie(keys, b, cookie(area, fast)),
    }
}
