// The refusals, each with its number.

ghost use Rattle.std.specs.Prelude.{◌≡◌, ◌<◌};
ghost use Rattle.rules.specs.Refusals.{refusal_number, code_in};

// Why a call does nothing, in the order of the numbers: 1 a kind above 6; 2 no register, or no channel; 3 a register that is only read;
// 4 a setting left to later requests; 5 a number too large; 6 no requester; 7 a length; 8 the contents of an image; 9 a record that is not
// sound; 10 no room for a byte; 11 no byte; 12 a trace that grows too long; 13 no such device in a row, or no such row.
#[derive(Clone, Copy, Debug, PartialEq, Eq)]
pub enum Refusal {
    Unknown,
    NoRegister,
    ReadOnly,
    Later,
    TooLarge,
    NoRequester,
    Length,
    Contents,
    Unsound,
    NoRoom,
    NoByte,
    TooLong,
    NoDevice,
}

impl Refusal {
    // The code of an answer.
    #[tactic(auto, unfolding(crate::specs::Refusals::refusal_number))]
    pub fn number(self) -> u8
        ensures value { result ≡ refusal_number self }
        ensures nonzero { 0 < result }
    {
        match self {
            Refusal::Unknown => 1,
            Refusal::NoRegister => 2,
            Refusal::ReadOnly => 3,
            Refusal::Later => 4,
            Refusal::TooLarge => 5,
            Refusal::NoRequester => 6,
            Refusal::Length => 7,
            Refusal::Contents => 8,
            Refusal::Unsound => 9,
            Refusal::NoRoom => 10,
            Refusal::NoByte => 11,
            Refusal::TooLong => 12,
            Refusal::NoDevice => 13,
        }
    }
}

// 0 where nothing is refused.
#[tactic(auto, unfolding(crate::specs::Refusals::code_in))]
pub fn code(r: Result<(), Refusal>) -> u8
    ensures { result ≡ code_in r }
{
    match r {
        Ok(()) => 0,
        Err(refusal) => refusal.number(),
    }
}
