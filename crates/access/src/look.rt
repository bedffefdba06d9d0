// One look over all lines, which tells a load or a store what it needs to know of its address.
ghost use Rattle.std.specs.Prelude.{◌≡◌};
ghost use Rattle.access.specs.Look.{unseen, kept, with_line, with_cache, seen_of};

use rules::{Cache, Held, Line, Machine, Pos, State};

// A load or store: the asking cache, whether it has a VID, the number that it acts with, and the address.
#[derive(Clone, Copy)]
pub struct Access {
    pub cache: usize,
    pub vid: bool,
    pub a: u16,
    pub x: u16,
}

// The first line of each kind: the owner, an S-S of the asker that hits, a plain line of the asker, a plain line; and whether there is an M or O.
#[derive(Clone, Copy)]
pub struct Seen {
    pub owner: Option<Held>,
    pub share: Option<Held>,
    pub own: Option<Held>,
    pub plain: Option<Held>,
    pub dirty: bool,
}

impl Seen {
    fn nothing() -> Seen
        ensures { result ≡ unseen }
    {
        Seen {
            owner: None,
            share: None,
            own: None,
            plain: None,
            dirty: false,
        }
    }

    // A line of the address that is looked for: of each kind the first that passes stays. Few lines come here, and the walk past the others is quicker if
    // this stands apart.
    #[inline(never)]
    fn see(&mut self, access: Access, held: Held)
        ensures { self.new ≡ with_line access.cache access.a held.line.address held.place held.line self.old }
    {
        let Held { place, line } = held;
        let state = line.state;
        let hit = line.hits(access.a);
        let mine = place.cache == access.cache;
        let plain = state.is_plain();
        keep(&mut self.owner, state.can_own() & hit, held);
        keep(&mut self.share, mine & ((state == State::SS) & hit), held);
        keep(&mut self.own, mine & plain, held);
        keep(&mut self.plain, plain, held);
        self.dirty |= state.is_dirty();
    }
}

// The first that passes stays.
fn keep(first: &mut Option<Held>, passes: bool, held: Held)
    ensures { first.new ≡ kept first.old passes held }
{
    if passes && first.is_none() {
        *first = Some(held);
    }
}

// The lines of the cache with this number.
fn see_lines(lines: &[Line], number: usize, access: Access, seen: &mut Seen)
    ensures { seen.new ≡ with_cache access.cache access.a access.x number (record { lines = lines.now }) seen.old }
{
    for (slot, line) in lines.iter().enumerate() {
        if line.address == access.x {
            let place = Pos {
                cache: number,
                slot,
            };
            seen.see(access, Held { place, line: *line });
        }
    }
}

// What an access sees of its address.
pub fn look(machine: &Machine, access: Access) -> Seen
    ensures { result ≡ seen_of machine.now access.cache access.a access.x }
{
    let caches: &[Cache] = &machine.caches;
    let mut seen = Seen::nothing();
    for (number, cache) in caches.iter().enumerate() {
        see_lines(&cache.lines, number, access, &mut seen);
    }
    seen
}
