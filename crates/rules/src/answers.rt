// What an answer carries: its word and its data, the number of a refusal, the letter of a fault.
ghost use Rattle.std.specs.Prelude.{◌≡◌};
ghost use Rattle.rules.specs.Answer.{number_of, letter_of, data_of, text_of};

use super::{Answer, Fault, Reason};

impl Answer {
    // As a report says it; the number of a refusal follows the last.
    pub fn word(self) -> &'static str
        ensures { result.now ≡ text_of self }
    {
        match self {
            Answer::Value(_) => "value",
            Answer::Done => "done",
            Answer::Misspec => "misspec",
            Answer::Overflow => "overflow",
            Answer::Refused(_) => "refused-",
        }
    }

    // The loaded value, else 0.
    pub fn data(self) -> u64
        ensures { result ≡ data_of self }
    {
        match self {
            Answer::Value(word) => word,
            _ => 0,
        }
    }
}

impl Reason {
    // Document 01's number of a refusal, and 14 of request 2026-01.
    pub fn number(self) -> u64
        ensures { result ≡ number_of self }
    {
        match self {
            Reason::CacheCount => 1,
            Reason::NotSound => 2,
            Reason::NoSuchCache => 3,
            Reason::AddressTooLarge => 4,
            Reason::SlotTooLarge => 5,
            Reason::VidTooLarge => 6,
            Reason::VidPast => 7,
            Reason::VidNotNext => 8,
            Reason::NotSettled => 9,
            Reason::SlotEmpty => 10,
            Reason::NoRoom => 11,
            Reason::Unreadable(_, _) => 12,
            Reason::NoFit => 13,
            Reason::TextTooLong => 14,
        }
    }
}

impl Fault {
    // The letter of a fault, `a` to `e`.
    pub fn letter(self) -> u8
        ensures { result ≡ letter_of self }
    {
        self as u8
    }
}
