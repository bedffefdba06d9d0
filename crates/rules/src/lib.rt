// The types of the machine, of its steps and of their answers, and what a state, a line and an answer tell of themselves.
//
// Document 01's rules over these types are the definitions in specs/, a file a heading; the laws about them are in proofs/.
// Every function here is proved to give what its definition says, has no `requires`, and the crate assumes nothing.
#![tactic(auto)]

mod answers;
mod classes;
mod hitting;
mod text;

// I; plain M, O, E, S; speculative S-M, S-O, S-E, S-S.
#[derive(Clone, Copy, PartialEq, Eq)]
pub enum State {
    I,
    M,
    O,
    E,
    S,
    SM,
    SO,
    SE,
    SS,
}

// One slot: a state, an address, a modified VID m, a high VID h and a word.
#[derive(Clone, Copy, PartialEq, Eq)]
pub struct Line {
    pub state: State,
    pub address: u16,
    pub m: u16,
    pub h: u16,
    pub word: u64,
}

#[derive(Clone, Copy)]
pub struct Cache {
    pub lines: [Line; 16],
}

// `count` of the four caches are in use; `lcvid` is the last committed VID.
#[derive(Clone, Copy)]
pub struct Machine {
    pub caches: [Cache; 4],
    pub count: usize,
    pub lcvid: u16,
    pub memory: [u64; 64],
}

// Where a line stands.
#[derive(Clone, Copy, PartialEq, Eq)]
pub struct Pos {
    pub cache: usize,
    pub slot: usize,
}

// A line, and where it stands.
#[derive(Clone, Copy)]
pub struct Held {
    pub place: Pos,
    pub line: Line,
}

// The six steps. `at` is an address, `data` the word to store.
#[derive(Clone, Copy, PartialEq, Eq)]
pub enum Op {
    Load {
        cache: usize,
        vid: u64,
        at: u64,
    },
    Store {
        cache: usize,
        vid: u64,
        at: u64,
        data: u64,
    },
    Commit {
        vid: u64,
    },
    Abort,
    Reset,
    Evict {
        cache: usize,
        slot: usize,
    },
}

// What is wrong with an unreadable line, in the order of request 2026-01's list: `letter` gives the letter behind the 12, `a` to `e`.
#[derive(Clone, Copy, PartialEq, Eq)]
pub enum Fault {
    WrongKey = 97,
    BadNumber = 98,
    NumberTooLarge = 99,
    KeyNotZero = 100,
    NoLineEnd = 101,
}

// Why a call is refused, in the order of document 01's table: `number` gives the number there. A line that is unreadable is so from a column on, which has 32 bits: with 64 every answer would be half as long again.
#[derive(Clone, Copy, PartialEq, Eq)]
pub enum Reason {
    CacheCount,
    NotSound,
    NoSuchCache,
    AddressTooLarge,
    SlotTooLarge,
    VidTooLarge,
    VidPast,
    VidNotNext,
    NotSettled,
    SlotEmpty,
    NoRoom,
    Unreadable(Fault, u32),
    NoFit,
    TextTooLong,
}

#[derive(Clone, Copy, PartialEq, Eq)]
pub enum Answer {
    Value(u64),
    Done,
    Misspec,
    Overflow,
    Refused(Reason),
}

// A refusal carries its number and no value; the machine stands beside the answer.
#[derive(Clone, Copy)]
pub struct Answered {
    pub answer: Answer,
    pub machine: Machine,
}
