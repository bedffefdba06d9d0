// The six ops: how their lines begin, which keys they use, and the step that their numbers make.
ghost use Rattle.std.specs.Prelude.{◌≡◌, ◌++◌, drop};
ghost use Rattle.trace.specs.Trace.{cache_key, op_text, uses_of, kind_by, op_of};

use super::{Kind, Uses};
use rules::Op;

impl Kind {
    // The op of a line by its first letter, which stands behind `op=`. Where there is none, or another than theirs, the line breaks there at the latest, whichever op is taken.
    pub(crate) fn of(line: &[u8]) -> Kind
        ensures { result ≡ kind_by (drop 3 line.now) }
    {
        match line.get(3) {
            Some(b's') => Kind::AskStore,
            Some(b'c') => Kind::AskCommit,
            Some(b'a') => Kind::AskAbort,
            Some(b'r') => Kind::AskReset,
            Some(b'e') => Kind::AskEvict,
            _ => Kind::AskLoad,
        }
    }

    // The op, and the first key behind it.
    pub(crate) fn opening(self) -> &'static [u8]
        ensures { result.now ≡ op_text self ++ cache_key }
    {
        match self {
            Kind::AskLoad => b"op=load cache=",
            Kind::AskStore => b"op=store cache=",
            Kind::AskCommit => b"op=commit cache=",
            Kind::AskAbort => b"op=abort cache=",
            Kind::AskReset => b"op=reset cache=",
            Kind::AskEvict => b"op=evict cache=",
        }
    }

    pub(crate) fn uses(self) -> Uses
        ensures { result ≡ uses_of self }
    {
        Uses {
            cache: matches!(self, Kind::AskLoad | Kind::AskStore | Kind::AskEvict),
            vid: matches!(self, Kind::AskLoad | Kind::AskStore | Kind::AskCommit),
            at: matches!(self, Kind::AskLoad | Kind::AskStore | Kind::AskEvict),
            word: matches!(self, Kind::AskStore),
        }
    }

    // The step with those numbers.
    pub(crate) fn op(self, cache: u64, vid: u64, at: u64, data: u64) -> Op
        ensures { result ≡ op_of self cache vid at «data» }
    {
        match self {
            Kind::AskLoad => Op::Load {
                cache: cache as usize,
                vid,
                at,
            },
            Kind::AskStore => Op::Store {
                cache: cache as usize,
                vid,
                at,
                data,
            },
            Kind::AskCommit => Op::Commit { vid },
            Kind::AskAbort => Op::Abort,
            Kind::AskReset => Op::Reset,
            Kind::AskEvict => Op::Evict {
                cache: cache as usize,
                slot: at as usize,
            },
        }
    }
}
