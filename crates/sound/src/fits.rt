// What a line owes by itself, and what any two live lines of an address owe each other.
ghost use Rattle.std.specs.Prelude.{◌≡◌};
ghost use Rattle.rules.specs.HouseTest.{line_fits, slot_fits, disjoint, pair_fits, owns_it};

use super::table::may_stand;
use rules::{Held, Line, Machine, State};

// ---- one line

// Empty slots are zero; plain lines have VIDs 0, 0; S-E has m = 0; S-M and S-E have m ≤ h ≤ 63 and h ≥ 1; S-O has m < h ≤ 63; S-S has m < h ≤ 64.
#[tactic(auto, unfolding(rules::specs::HouseTest::line_fits, rules::specs::Data::same_data))]
fn line_fits(l: Line) -> bool
    ensures { result ≡ line_fits 64 l }
{
    match l.state {
        State::I => l == Line::empty(),
        State::M | State::O | State::E | State::S => l.m == 0 && l.h == 0,
        State::SM => l.m <= l.h && l.h < 64 && 1 <= l.h,
        State::SE => l.m == 0 && l.h < 64 && 1 <= l.h,
        State::SO => l.m < l.h && l.h < 64,
        State::SS => l.m < l.h && l.h <= 64,
    }
}

// Unused caches are empty, and addresses are below 64.
#[tactic(auto, unfolding(rules::specs::HouseTest::slot_fits))]
pub(crate) fn slot_fits(machine: &Machine, l: Held) -> bool
    ensures { result ≡ slot_fits machine.now l.place l.line }
{
    let used = l.place.cache < machine.count;
    (used || l.line.state == State::I) && l.line.address < 64 && line_fits(l.line)
}

// ---- two live lines of one address

// The ranges of two owners lie one behind the other.
#[tactic(auto, unfolding(rules::specs::HouseTest::disjoint))]
fn are_disjoint(k: Line, l: Line) -> bool
    ensures { result ≡ disjoint k l }
{
    (k.state == State::SO && k.h <= l.m) || (l.state == State::SO && l.h <= k.m)
}

// By the table; plain lines are in different caches and agree; ranges are disjoint; no cache holds two S-S with the same m.
#[tactic(auto, unfolding(rules::specs::HouseTest::pair_fits, rules::specs::Data::same_data))]
pub(crate) fn pair_fits(k: Held, l: Held) -> bool
    ensures { result ≡ pair_fits k.place l.place k.line l.line }
{
    let near = k.place.cache == l.place.cache;
    let (k, l) = (k.line, l.line);
    let plains = !k.state.is_plain() || (!near && k.word == l.word);
    let ranges = !(k.state.can_own() && l.state.can_own()) || are_disjoint(k, l);
    let shares = !(k.state == State::SS && l.state == State::SS && near) || k.m != l.m;
    may_stand(k.state, l.state) & plains & ranges & shares
}

// l is the owner line of the S-S k: in another cache, with its m and its word, and k's h is at most the larger of l's h and LCVID, plus 1; for an
// S-O owner also at most l's h.
#[tactic(auto, unfolding(rules::specs::HouseTest::owns_it, rules::specs::Data::same_data))]
pub(crate) fn owns_it(lcvid: u16, k: Held, l: Held) -> bool
    ensures { result ≡ owns_it lcvid k.place k.line l.place l.line }
{
    let away = l.place.cache != k.place.cache;
    let (k, l) = (k.line, l.line);
    let reaches = k.h <= l.h.max(lcvid).saturating_add(1);
    let within = l.state != State::SO || k.h <= l.h;
    l.state.can_own() && l.m == k.m && away && l.word == k.word && reaches && within
}
