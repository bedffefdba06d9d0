// The house rules: for each clause a machine that breaks it and nothing else, beside its nearest sound neighbour.
use crate::case::{Case, line, place};
use rules::{Line, State};

// House rules: the count is 1 to 4.
pub fn count() {
    io::write_all(1, b"house rules: the count is 1 to 4\n");
    let mut case = Case::make(1);
    case.machine.count = 0;
    case.check();
    case.machine.count = 1;
    case.check();
    case.machine.count = 4;
    case.check();
    case.machine.count = 5;
    case.check();
}

// Unused caches are empty.
pub fn unused_caches() {
    io::write_all(1, b"unused caches are empty\n");
    let mut case = Case::make(3);
    case.put(place(2, 0), line(State::E, 5, 0, 0, 0));
    case.check();
    case.machine.count = 2;
    case.check();
}

// LCVID is at most 63.
pub fn lcvid() {
    io::write_all(1, b"LCVID is at most 63\n");
    let mut case = Case::make(1);
    case.machine.lcvid = 63;
    case.check();
    case.machine.lcvid = 64;
    case.check();
}

// Empty slots are zero.
pub fn empty_slots() {
    io::write_all(1, b"empty slots are zero\n");
    let mut case = Case::make(1);
    case.check();
    case.put(place(0, 3), line(State::I, 1, 0, 0, 0));
    case.check();
    case = Case::make(1);
    case.check();
    case.put(place(0, 3), line(State::I, 0, 1, 0, 0));
    case.check();
    case = Case::make(1);
    case.check();
    case.put(place(0, 3), line(State::I, 0, 0, 1, 0));
    case.check();
    case = Case::make(1);
    case.check();
    case.put(place(0, 3), line(State::I, 0, 0, 0, 1));
    case.check();
}

// Addresses are below 64.
pub fn addresses() {
    io::write_all(1, b"addresses are below 64\n");
    let mut case = Case::make(1);
    case.put(place(0, 0), line(State::E, 63, 0, 0, 0));
    case.check();
    case.put(place(0, 0), line(State::E, 64, 0, 0, 0));
    case.check();
}

// Plain lines have VIDs 0, 0.
pub fn plain_vids() {
    io::write_all(1, b"plain lines have VIDs 0, 0\n");
    let mut case = Case::make(1);
    case.put(place(0, 0), line(State::M, 5, 0, 0, 1));
    case.check();
    case.put(place(0, 0), line(State::M, 5, 1, 0, 1));
    case.check();
    case.put(place(0, 0), line(State::M, 5, 0, 1, 1));
    case.check();
}

// S-E has m = 0.
pub fn se_zero() {
    io::write_all(1, b"S-E has m = 0\n");
    let mut case = Case::make(1);
    case.machine.lcvid = 1;
    case.put(place(0, 0), line(State::SE, 5, 0, 1, 0));
    case.check();
    case.put(place(0, 0), line(State::SE, 5, 1, 1, 0));
    case.check();
}

// S-M and S-E have m up to h, h up to 63 and at least 1.
pub fn top_vids() {
    io::write_all(
        1,
        b"S-M and S-E have m up to h, h up to 63 and at least 1\n",
    );
    let mut case = Case::make(1);
    case.machine.lcvid = 2;
    case.put(place(0, 0), line(State::SM, 5, 2, 2, 1));
    case.check();
    case.put(place(0, 0), line(State::SM, 5, 2, 1, 1));
    case.check();
    case.put(place(0, 0), line(State::SM, 5, 2, 63, 1));
    case.check();
    case.put(place(0, 0), line(State::SM, 5, 2, 64, 1));
    case.check();
    case.put(place(0, 0), line(State::SM, 5, 0, 1, 1));
    case.check();
    case.put(place(0, 0), line(State::SM, 5, 0, 0, 1));
    case.check();
}

// S-O has m below h, h up to 63; of dead lines too.
pub fn so_vids() {
    io::write_all(1, b"S-O has m below h, h up to 63; of dead lines too\n");
    let mut case = Case::make(1);
    case.machine.lcvid = 3;
    case.put(place(0, 0), line(State::SO, 5, 2, 3, 1));
    case.check();
    case.put(place(0, 0), line(State::SO, 5, 3, 3, 1));
    case.check();
    case.machine.lcvid = 63;
    case.put(place(0, 0), line(State::SO, 5, 2, 63, 1));
    case.check();
    case.put(place(0, 0), line(State::SO, 5, 2, 64, 1));
    case.check();
}

// S-S has m below h, h up to 64; of dead lines too.
pub fn ss_vids() {
    io::write_all(1, b"S-S has m below h, h up to 64; of dead lines too\n");
    let mut case = Case::make(2);
    case.machine.lcvid = 3;
    case.put(place(0, 0), line(State::SS, 5, 2, 3, 1));
    case.check();
    case.put(place(0, 0), line(State::SS, 5, 3, 3, 1));
    case.check();
    case.machine.lcvid = 63;
    case.put(place(0, 0), line(State::SS, 5, 2, 64, 1));
    case.put(place(1, 0), line(State::SM, 5, 2, 63, 1));
    case.check();
    case.put(place(0, 0), line(State::SS, 5, 2, 65, 1));
    case.check();
}

// The table: M stands with nothing, O and S with S.
pub fn table() {
    io::write_all(1, b"the table: M stands with nothing, O and S with S\n");
    let mut case = Case::make(2);
    case.put(place(0, 0), line(State::O, 5, 0, 0, 1));
    case.put(place(1, 0), line(State::S, 5, 0, 0, 1));
    case.check();
    case.put(place(0, 0), line(State::M, 5, 0, 0, 1));
    case.check();
    case.put(place(0, 0), line(State::O, 5, 0, 0, 1));
    case.put(place(1, 0), line(State::O, 5, 0, 0, 1));
    case.check();
    case.put(place(1, 0), line(State::S, 6, 0, 0, 0));
    case.check();
}

// No cache holds two plain lines of an address.
pub fn plain_caches() {
    io::write_all(1, b"no cache holds two plain lines of an address\n");
    let mut case = Case::make(2);
    case.put(place(0, 0), line(State::O, 5, 0, 0, 1));
    case.put(place(1, 0), line(State::S, 5, 0, 0, 1));
    case.check();
    case.put(place(1, 0), Line::empty());
    case.put(place(0, 1), line(State::S, 5, 0, 0, 1));
    case.check();
}

// E, and S where there is no O, equal memory; S beside O equals O.
pub fn plain_words() {
    io::write_all(
        1,
        b"E, and S where there is no O, equal memory; S beside O equals O\n",
    );
    let mut case = Case::make(2);
    case.machine.memory[5] = 7;
    case.put(place(0, 0), line(State::E, 5, 0, 0, 7));
    case.check();
    case.put(place(0, 0), line(State::E, 5, 0, 0, 8));
    case.check();
    case.put(place(0, 0), line(State::S, 5, 0, 0, 7));
    case.check();
    case.put(place(0, 0), line(State::S, 5, 0, 0, 8));
    case.check();
    case.put(place(1, 0), line(State::O, 5, 0, 0, 8));
    case.check();
    case.put(place(1, 0), line(State::O, 5, 0, 0, 9));
    case.check();
}

// Exactly one S-M or S-E; S-E equals memory.
pub fn one_top() {
    io::write_all(1, b"exactly one S-M or S-E; S-E equals memory\n");
    let mut case = Case::make(2);
    case.put(place(0, 0), line(State::SO, 5, 0, 2, 1));
    case.put(place(0, 1), line(State::SM, 5, 2, 2, 2));
    case.check();
    case.put(place(0, 1), Line::empty());
    case.check();
    case.put(place(0, 0), line(State::SM, 5, 0, 2, 1));
    case.check();
    case.put(place(1, 0), line(State::SM, 5, 0, 2, 1));
    case.check();
    case = Case::make(2);
    case.machine.memory[5] = 7;
    case.put(place(0, 0), line(State::SE, 5, 0, 2, 7));
    case.check();
    case.put(place(0, 0), line(State::SE, 5, 0, 2, 8));
    case.check();
}

// The ranges join end to end up to the m of S-M: a gap, an overlap, a fork.
pub fn ranges() {
    io::write_all(
        1,
        b"the ranges join end to end up to the m of S-M: a gap, an overlap, a fork\n",
    );
    let mut case = Case::make(1);
    case.put(place(0, 0), line(State::SO, 5, 0, 2, 1));
    case.put(place(0, 1), line(State::SO, 5, 2, 5, 2));
    case.put(place(0, 2), line(State::SM, 5, 5, 7, 3));
    case.check();
    case.put(place(0, 2), line(State::SM, 5, 6, 7, 3));
    case.check();
    case.put(place(0, 2), line(State::SM, 5, 5, 7, 3));
    case.put(place(0, 1), line(State::SO, 5, 3, 5, 2));
    case.check();
    case.put(place(0, 1), line(State::SO, 5, 1, 5, 2));
    case.check();
    case.put(place(0, 1), line(State::SO, 5, 2, 5, 2));
    case.check();
    case.put(place(0, 3), line(State::SO, 5, 2, 5, 2));
    case.check();
}

// The lowest m is at most LCVID.
pub fn lowest() {
    io::write_all(1, b"the lowest m is at most LCVID\n");
    let mut case = Case::make(1);
    case.machine.lcvid = 1;
    case.put(place(0, 0), line(State::SM, 5, 1, 2, 3));
    case.check();
    case.put(place(0, 0), line(State::SM, 5, 2, 2, 3));
    case.check();
}

// Each S-S has an owner line with its m, in another cache, with the same word.
pub fn owner_line() {
    io::write_all(
        1,
        b"each S-S has an owner line with its m, in another cache, with the same word\n",
    );
    let mut case = Case::make(2);
    case.put(place(0, 0), line(State::SM, 5, 0, 3, 8));
    case.put(place(1, 0), line(State::SS, 5, 0, 2, 8));
    case.check();
    case.put(place(1, 0), line(State::SS, 5, 1, 2, 8));
    case.check();
    case.put(place(1, 0), line(State::SS, 5, 0, 2, 9));
    case.check();
    case.put(place(1, 0), Line::empty());
    case.put(place(0, 1), line(State::SS, 5, 0, 2, 8));
    case.check();
}

// Its h is at most the larger of the owner's h and LCVID, plus 1; for an S-O owner at most the owner's h.
pub fn share_reach() {
    io::write_all(
        1,
        b"its h is at most the larger of the owner's h and LCVID, plus 1; for an S-O owner at most the owner's h\n",
    );
    let mut case = Case::make(2);
    case.put(place(0, 0), line(State::SM, 5, 0, 3, 8));
    case.put(place(1, 0), line(State::SS, 5, 0, 4, 8));
    case.check();
    case.put(place(1, 0), line(State::SS, 5, 0, 5, 8));
    case.check();
    case.machine.lcvid = 4;
    case.check();
    case.machine.lcvid = 0;
    case.put(place(1, 0), Line::empty());
    case.put(place(0, 0), line(State::SO, 5, 0, 3, 8));
    case.put(place(0, 1), line(State::SM, 5, 3, 9, 9));
    case.put(place(1, 0), line(State::SS, 5, 0, 3, 8));
    case.check();
    case.put(place(1, 0), line(State::SS, 5, 0, 4, 8));
    case.check();
}

// No cache holds two S-S with the same m.
pub fn share_twice() {
    io::write_all(1, b"no cache holds two S-S with the same m\n");
    let mut case = Case::make(2);
    case.put(place(0, 0), line(State::SM, 5, 0, 3, 8));
    case.put(place(1, 0), line(State::SS, 5, 0, 2, 8));
    case.put(place(1, 1), line(State::SS, 6, 0, 2, 8));
    case.check();
    case.put(place(1, 1), Line::empty());
    case.check();
    case.put(place(1, 1), line(State::SS, 5, 0, 3, 8));
    case.check();
}
