// The ten kinds of join, as a table that is read by kind.
ghost use Rattle.std.specs.Prelude.{◌≡◌, ◌<◌};
ghost use Rattle.joins.specs.Kinds.{join_kind};

use crate::JoinKind;

// 0 Inner, 1 Left, 2 Full, 3 Right, 4 LeftSemi, 5 LeftAnti, 6 LeftMark, 7 RightSemi, 8 RightAnti, 9 RightMark.
const KINDS: [JoinKind; 10] = [
    JoinKind {
        left: true,
        right: true,
        shifted: true,
        pairs: true,
    },
    JoinKind {
        left: true,
        right: true,
        shifted: true,
        pairs: false,
    },
    JoinKind {
        left: true,
        right: true,
        shifted: true,
        pairs: false,
    },
    JoinKind {
        left: true,
        right: true,
        shifted: true,
        pairs: false,
    },
    JoinKind {
        left: true,
        right: false,
        shifted: false,
        pairs: false,
    },
    JoinKind {
        left: true,
        right: false,
        shifted: false,
        pairs: false,
    },
    JoinKind {
        left: true,
        right: false,
        shifted: false,
        pairs: false,
    },
    JoinKind {
        left: false,
        right: true,
        shifted: false,
        pairs: false,
    },
    JoinKind {
        left: false,
        right: true,
        shifted: false,
        pairs: false,
    },
    JoinKind {
        left: false,
        right: true,
        shifted: false,
        pairs: false,
    },
];

// What a kind of join keeps.
pub fn kind_of(kind: usize) -> JoinKind
    requires { kind < 10 }
    ensures { result ≡ join_kind kind }
{
    KINDS[kind]
}
