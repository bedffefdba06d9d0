// What a change of all lines does, and what becomes of one line.
ghost use Rattle.std.specs.Prelude.{◌≡◌, cond};
ghost use Rattle.rules.specs.Line.{empty};
ghost use Rattle.rules.specs.Load.{demote, demote_line};
ghost use Rattle.rules.specs.Abort.{settle, settled, abort_line};
ghost use Rattle.rules.specs.Reset.{reset_line};
ghost use Rattle.moves.specs.Change.{changed, reached, is_stay};

use rules::{Line, Pos, State};

// `x` is an address, `m` a modified VID; `cache` is the asking one.
#[derive(Clone, Copy)]
pub enum Change {
    // All lines of the address drop.
    DropOf { x: u16 },
    // The S-S lines with that m drop.
    DropShares { x: u16, m: u16 },
    // The asker's own S-S lines with that m drop.
    DropStale { cache: usize, x: u16, m: u16 },
    // M becomes O, E becomes S.
    Demote { x: u16 },
    // Abort, where `lcvid` is the last committed VID.
    Abort { lcvid: u16 },
    // Reset, but for LCVID.
    Reset,
    // Every line stays.
    Stay,
}

impl Change {
    // Does every line stay?
    pub fn stays(self) -> bool
        ensures { result ≡ is_stay self }
    {
        matches!(self, Change::Stay)
    }

    // Can the change reach the line? One that it can't stays as it is.
    pub(crate) fn reaches(self, line: Line) -> bool
        ensures { result ≡ reached self line }
    {
        match self {
            Change::DropOf { x }
            | Change::DropShares { x, .. }
            | Change::DropStale { x, .. }
            | Change::Demote { x } => line.address == x,
            Change::Abort { .. } | Change::Reset => true,
            Change::Stay => false,
        }
    }

    // What becomes of the line, which stands at `place`.
    #[tactic(auto, unfolding(rules::specs::Load::is_of, rules::specs::Load::is_stale_share))]
    pub(crate) fn of(self, place: Pos, line: Line) -> Line
        ensures { result ≡ changed self place line }
    {
        match self {
            Change::DropOf { x } => drop_if(line.address == x, line),
            Change::DropShares { x, m } => drop_if(line.is_share(x, m), line),
            Change::DropStale { cache, x, m } => drop_if(
                place.cache == cache && line.is_share(x, m),
                line,
            ),
            Change::Demote { x } => demote_line(x, line),
            Change::Abort { lcvid } => abort_line(lcvid, line),
            Change::Reset => reset_line(line),
            Change::Stay => line,
        }
    }
}

// An empty slot where the line drops, else the line.
fn drop_if(gone: bool, line: Line) -> Line
    ensures { result ≡ cond gone empty line }
{
    if gone { Line::empty() } else { line }
}

// M becomes O, E becomes S.
fn demoted_state(state: State) -> State
    ensures { result ≡ demote state }
{
    match state {
        State::M => State::O,
        State::E => State::S,
        other => other,
    }
}

// A line of address x with its state demoted; another line stays.
#[tactic(auto, unfolding(rules::specs::Load::demote_line))]
fn demote_line(x: u16, line: Line) -> Line
    ensures { result ≡ demote_line x line }
{
    if line.address == x {
        Line {
            state: demoted_state(line.state),
            ..line
        }
    } else {
        line
    }
}

// M from S-M and S-O, E from S-E.
fn settled_state(state: State) -> State
    ensures { result ≡ settle state }
{
    match state {
        State::SM | State::SO => State::M,
        State::SE => State::E,
        State::SS => State::I,
        other => other,
    }
}

// The line as a plain one, with VIDs 0, 0.
fn settle_line(line: Line) -> Line
    ensures { result ≡ settled line }
{
    Line {
        state: settled_state(line.state),
        m: 0,
        h: 0,
        ..line
    }
}

// S-S lines drop; other speculative lines that LCVID hits settle, the rest drop; plain lines stay.
#[tactic(auto, unfolding(rules::specs::Abort::abort_line))]
fn abort_line(lcvid: u16, line: Line) -> Line
    ensures { result ≡ abort_line lcvid line }
{
    if !line.state.is_spec() {
        line
    } else if line.state.can_own() && line.hits(lcvid) {
        settle_line(line)
    } else {
        Line::empty()
    }
}

// S-O and S-S drop; S-M and S-E settle; plain lines stay.
#[tactic(auto, unfolding(rules::specs::Reset::reset_line))]
fn reset_line(line: Line) -> Line
    ensures { result ≡ reset_line line }
{
    if line.state.is_ranged() {
        Line::empty()
    } else if line.state.is_top() {
        settle_line(line)
    } else {
        line
    }
}
