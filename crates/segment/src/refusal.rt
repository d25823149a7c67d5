// The refusals that listener and client share. The order in which they are tested is in specs/Refusal.antt.
ghost use Rattle.std.specs.Prelude.{◌≡◌};
ghost use Rattle.segment.specs.Refusal.{number_of};

// Why a call is refused. When each is given is document 01's table, "Numbers returned"; the last two are document 02's, of captures.
#[derive(Clone, Copy, Drop)]
pub enum Refusal {
    Format,
    Address,
    Checksum,
    Port,
    Time,
    Flags,
    NameInUse,
    TableFull,
    NoConnection,
    Sequence,
    Output,
    Range,
    NotStarted,
    CutRecord,
    BadCapture,
}

// The number of a refusal, 1 to 15.
impl From<Refusal> for u8 {
    ghost from_gives = { λ why n. n ≡ number_of why };

    fn from(why: Refusal) -> u8
        ensures { result ≡ number_of why }
    {
        match why {
            Refusal::Format => 1,
            Refusal::Address => 2,
            Refusal::Checksum => 3,
            Refusal::Port => 4,
            Refusal::Time => 5,
            Refusal::Flags => 6,
            Refusal::NameInUse => 7,
            Refusal::TableFull => 8,
            Refusal::NoConnection => 9,
            Refusal::Sequence => 10,
            Refusal::Output => 11,
            Refusal::Range => 12,
            Refusal::NotStarted => 13,
            Refusal::CutRecord => 14,
            Refusal::BadCapture => 15,
        }
    }
}
