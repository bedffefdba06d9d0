// Document 01's "Also run" cases: numbers at their edges, full caches, and evictions of committed and uncommitted versions.
use crate::case::{Case, line, place};
use rules::State;

// VID 63 and 64.
pub fn vids() {
    io::write_all(1, b"VID 63 and 64\n");
    let mut case = Case::make(1);
    case.load(0, 63, 5);
    case.load(0, 64, 5);
    case.store(0, 64, 5, 1);
    case.commit(64);
    case.commit(63);
    case.store(0, 63, 5, 7);
    case.load(0, 63, 5);
    case.load(0, 62, 5);
    case.load(0, u64::MAX, 5);
    case.commit(u64::MAX);
}

// Commit 0, commit 1 twice; at LCVID 63 commit 64 is 6, every other 8, and VIDs 1 to 63 are 7.
pub fn commits() {
    io::write_all(
        1,
        b"commit 0, commit 1 twice; at LCVID 63 commit 64 is 6, every other 8, and VIDs 1 to 63 are 7\n",
    );
    let mut case = Case::make(1);
    case.commit(0);
    case.commit(1);
    case.commit(1);
    case.commit(3);
    case.machine.lcvid = 63;
    case.commit(64);
    case.commit(63);
    case.commit(0);
    case.load(0, 63, 5);
    case.load(0, 1, 5);
    case.load(0, 64, 5);
    case.load(0, 0, 5);
}

// A store that needs two slots: two free, one free, none, one dead, two dead.
pub fn two_slots() {
    io::write_all(
        1,
        b"a store that needs two slots: two free, one free, none, one dead, two dead\n",
    );
    let mut case = Case::make(1);
    case.fill(0, 14);
    case.store(0, 1, 20, 9);
    case.load(0, 1, 20);
    case.abort();
    case.evict(0, 14);
    case.put(place(0, 14), line(State::E, 14, 0, 0, 0));
    case.store(0, 1, 20, 9);
    case.put(place(0, 15), line(State::E, 15, 0, 0, 0));
    case.store(0, 1, 20, 9);
    case.machine.lcvid = 1;
    case.put(place(0, 3), line(State::SO, 30, 0, 1, 5));
    case.store(0, 2, 20, 9);
    case.put(place(0, 7), line(State::SS, 31, 0, 1, 5));
    case.store(0, 2, 20, 9);
    case.load(0, 2, 20);
    case.evict(0, 3);
    case.load(0, 0, 20);
}

// A load into a full cache: the line there, plain and with a VID; and not there.
pub fn full_load() {
    io::write_all(
        1,
        b"a load into a full cache: the line there, plain and with a VID; and not there\n",
    );
    let mut case = Case::make(1);
    case.fill(0, 16);
    case.load(0, 0, 3);
    case.load(0, 0, 40);
    case.load(0, 2, 3);
    case.load(0, 2, 41);
    case.load(0, 0, 3);
}

// A load of another cache's version into a full cache is 11, and marks nothing: the store after it passes; misspeculation comes before 11.
pub fn full_share() {
    io::write_all(
        1,
        b"a load of another cache's version into a full cache is 11, and marks nothing: the store after it passes; misspeculation comes before 11\n",
    );
    let mut case = Case::make(2);
    case.fill(0, 16);
    case.store(1, 3, 50, 5);
    case.load(0, 4, 50);
    case.store(1, 3, 50, 6);
    case.load(1, 4, 50);
    case.store(0, 3, 50, 7);
    case.load(1, 0, 50);
}

// Evicting S-M with h one above LCVID, and equal to it; S-E the same.
pub fn evictions() {
    io::write_all(
        1,
        b"evicting S-M with h one above LCVID, and equal to it; S-E the same\n",
    );
    let mut case = Case::make(1);
    case.store(0, 1, 5, 10);
    case.evict(0, 1);
    case.load(0, 0, 5);
    case = Case::make(1);
    case.store(0, 1, 5, 10);
    case.commit(1);
    case.evict(0, 1);
    case.load(0, 0, 5);
    case.load(0, 2, 5);
    case = Case::make(1);
    case.load(0, 1, 6);
    case.evict(0, 0);
    case.load(0, 1, 6);
    case.commit(1);
    case.evict(0, 0);
    case.evict(0, 0);
}
