// The table of 81 entries: which two states may stand together at one address.
ghost use Rattle.std.specs.Prelude.{◌≡◌};
ghost use Rattle.rules.specs.States.{stands};

use rules::State;

const T: bool = true;

const F: bool = false;

// Nine states against nine, in the order I, M, O, E, S, S-M, S-O, S-E, S-S: T where two lines of one address may be in them.
const STANDS: [[bool; 9]; 9] = [
    [F, F, F, F, F, F, F, F, F],
    [F, F, F, F, F, F, F, F, F],
    [F, F, F, F, T, F, F, F, F],
    [F, F, F, F, F, F, F, F, F],
    [F, F, T, F, T, F, F, F, F],
    [F, F, F, F, F, F, T, F, T],
    [F, F, F, F, F, T, T, F, T],
    [F, F, F, F, F, F, F, F, T],
    [F, F, F, F, F, T, T, T, T],
];

// The two may stand together.
pub(crate) fn may_stand(s: State, t: State) -> bool
    ensures { result ≡ stands s t }
{
    STANDS[s as usize][t as usize]
}
