// Moves over the machine: a line read and put, one change of all lines, refusing, and placing.
//
// A step that hands a machine on takes it and hands it back (`put`, `change`, `place`, `place_two`). Where several moves follow one another, the same
// ones work on a machine that is lent (`put_in`, `change_all`, `place_in`), and it's copied once.
// Every function here is proved to give what its definition says, has no `requires`, and the crate assumes nothing.
#![tactic(auto)]

mod changes;

ghost use Rattle.std.specs.Prelude.{◌≡◌};
ghost use Rattle.rules.specs.declared.Answer.TheVariants.{Refused};
ghost use Rattle.rules.specs.Machine.{at, change, put, free_in, free_slot, gives, place, place_two};
ghost use Rattle.moves.specs.Change.{changed, changed_cache};
ghost use Rattle.moves.specs.Room.{room, filled};

pub use changes::Change;
use rules::{Answer, Answered, Cache, Line, Machine, Pos, Reason};

// ---- a line by its place

// The line in a slot; past the end, an empty one.
#[tactic(auto, unfolding(rules::specs::Machine::at))]
pub fn line_at(machine: Machine, place: Pos) -> Line
    ensures { result ≡ at machine place }
{
    let line = machine
        .caches
        .get(place.cache)
        .and_then(|cache| cache.lines.get(place.slot));
    line.copied().unwrap_or(Line::empty())
}

// A line into a slot; past the end, nothing changes.
#[tactic(auto, unfolding(rules::specs::Machine::put))]
pub fn put_in(machine: &mut Machine, place: Pos, line: Line)
    ensures { machine.new ≡ put place line machine.old }
{
    let caches = machine.caches.as_mut_slice();
    if place.cache < caches.len() {
        let lines = caches[place.cache].lines.as_mut_slice();
        if place.slot < lines.len() {
            lines[place.slot] = line;
        }
    }
}

// The machine with a line in a slot; past the end, the machine as it was.
pub fn put(machine: Machine, place: Pos, line: Line) -> Machine
    ensures { result ≡ put place line machine }
{
    let mut next = machine;
    put_in(&mut next, place, line);
    next
}

// ---- a change of all lines

// Each line of a cache is changed; `number` is the cache's.
pub fn change_in(cache: &mut Cache, number: usize, ch: Change)
    ensures { cache.new ≡ changed_cache ch number cache.old }
{
    for (slot, line) in cache.lines.as_mut_slice().iter_mut().enumerate() {
        if ch.reaches(*line) {
            let place = Pos {
                cache: number,
                slot,
            };
            *line = ch.of(place, *line);
        }
    }
}

// Each line of the machine is changed.
pub fn change_all(machine: &mut Machine, ch: Change)
    ensures { machine.new ≡ change (changed ch) machine.old }
{
    for (number, cache) in machine.caches.as_mut_slice().iter_mut().enumerate() {
        change_in(cache, number, ch);
    }
}

// The machine with each line changed.
pub fn change(machine: Machine, ch: Change) -> Machine
    ensures { result ≡ change (changed ch) machine }
{
    let mut next = machine;
    change_all(&mut next, ch);
    next
}

// ---- refusing

// A refusal with its reason, and the machine as it was.
pub fn refused(machine: Machine, reason: Reason) -> Answered
    ensures { result ≡ gives (Refused reason) machine }
{
    Answered {
        answer: Answer::Refused(reason),
        machine,
    }
}

// ---- placing

// The lowest free slot of a cache: one that is empty or dead.
fn free_in(cache: &Cache, lcvid: u16) -> Option<usize>
    ensures { result ≡ free_in lcvid cache.now }
{
    cache.lines.iter().position(|line| !line.is_live(lcvid))
}

// The same by the cache's number. Past the last cache there is none.
#[tactic(auto, unfolding(rules::specs::Machine::free_slot, rules::specs::Lists::first_at))]
fn free_slot(machine: &Machine, cache: usize) -> Option<usize>
    ensures { result ≡ free_slot machine.now cache }
{
    machine
        .caches
        .get(cache)
        .and_then(|cache| free_in(cache, machine.lcvid))
}

// A line into the lowest free slot of a cache. Where there is none, refusal 11, and nothing changes.
pub fn place_in(machine: &mut Machine, cache: usize, line: Line) -> Result<(), Reason>
    ensures answer { result ≡ room (free_slot machine.old cache) }
    ensures machine { machine.new ≡ filled cache line machine.old (free_slot machine.old cache) }
{
    let slot = free_slot(machine, cache).ok_or(Reason::NoRoom)?;
    put_in(machine, Pos { cache, slot }, line);
    Ok(())
}

// A line in the lowest free slot of a cache of `after`, with the answer; where there is none, refusal 11, and `before` comes back.
#[tactic(auto, unfolding(rules::specs::Machine::place))]
pub fn place(before: Machine, answer: Answer, cache: usize, line: Line, after: Machine) -> Answered
    ensures { result ≡ place before answer cache line after }
{
    let mut placed = after;
    match place_in(&mut placed, cache, line) {
        Ok(()) => Answered {
            answer,
            machine: placed,
        },
        Err(reason) => refused(before, reason),
    }
}

// The same for two lines, one after the other.
#[tactic(auto, unfolding(rules::specs::Machine::place_two))]
pub fn place_two(
    before: Machine,
    answer: Answer,
    cache: usize,
    first: Line,
    second: Line,
    after: Machine,
) -> Answered
    ensures { result ≡ place_two before answer cache first second after }
{
    let mut next = after;
    match place_in(&mut next, cache, first) {
        Ok(()) => place(before, answer, cache, second, next),
        Err(reason) => refused(before, reason),
    }
}
