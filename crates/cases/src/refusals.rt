// Every refusal of a machine or a step at its edge and one off it, and the order in which they are tried.
use crate::case::Case;

// Refusal 1.
pub fn refusal_1() {
    io::write_all(1, b"refusal 1\n");
    let mut case = Case::make(0);
    case.load(0, 0, 5);
    case.load(1, 0, 5);
    Case::make(5);
    Case::make(usize::MAX);
    case = Case::make(4);
    case.load(3, 0, 63);
}

// Refusals 3, 4 and 5 at their edges, and one off.
pub fn refusals_3_4_5() {
    io::write_all(1, b"refusals 3, 4 and 5 at their edges, and one off\n");
    let mut case = Case::make(2);
    case.load(2, 0, 5);
    case.store(2, 0, 5, 1);
    case.evict(2, 0);
    case.load(usize::MAX, 0, 5);
    case.load(1, 0, 5);
    case.load(1, 0, 64);
    case.store(1, 0, 64, 1);
    case.load(1, 0, u64::MAX);
    case.store(1, 0, 63, 1);
    case.evict(1, 16);
    case.evict(1, usize::MAX);
    case.evict(1, 15);
    case.evict(1, 0);
}

// Refusals 7, 9 and 10.
pub fn refusals_7_9_10() {
    io::write_all(1, b"refusals 7, 9 and 10\n");
    let mut case = Case::make(1);
    case.commit(1);
    case.load(0, 1, 5);
    case.store(0, 1, 5, 1);
    case.load(0, 2, 5);
    case.reset();
    case.commit(2);
    case.reset();
    case.load(0, 1, 5);
    case.evict(0, 9);
}

// The order of checks: 3 before 4, 4 before 6, 6 before 7; 3 before 5, 5 before 10.
pub fn order() {
    io::write_all(
        1,
        b"the order of checks: 3 before 4, 4 before 6, 6 before 7; 3 before 5, 5 before 10\n",
    );
    let mut case = Case::make(1);
    case.commit(1);
    case.load(1, 1, 64);
    case.load(0, 64, 64);
    case.load(0, 64, 5);
    case.load(0, 1, 5);
    case.evict(1, 16);
    case.evict(0, 16);
    case.commit(64);
}

// Refusal 2 comes before all others, and for every step.
pub fn refusal_2() {
    io::write_all(
        1,
        b"refusal 2 comes before all others, and for every step\n",
    );
    let mut case = Case::make(1);
    case.machine.lcvid = 64;
    case.load(9, 99, 99);
    case.store(9, 99, 99, 1);
    case.commit(99);
    case.abort();
    case.reset();
    case.evict(9, 99);
    case.machine.count = 0;
    case.machine.lcvid = u16::MAX;
    case.abort();
    case.machine.count = usize::MAX;
    case.machine.lcvid = 0;
    case.abort();
}
