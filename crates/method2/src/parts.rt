// The kinds of method 2's log, and its length.
ghost use Rattle.std.specs.Prelude.{◌≡◌};
ghost use Rattle.lookup.specs.Layout.{layout_size};
ghost use Rattle.lookup.specs.Method2.{method_2};

use log_entries::Parts;

// The kinds in the order of the log. docs/REFERENCE.md says what each shows.
pub const PARTS: Parts<8, 6, 2> = Parts {
    head: [10, 1, 2, 3, 4, 5, 6, 7],
    turn: [8, 9, 11, 12, 13, 14],
    end: [5, 15],
};

// How many entries the log has, for so many turns.
pub fn log_length(turns: u16) -> usize
    ensures { result ≡ layout_size turns method_2.layout }
{
    PARTS.log_length(turns)
}
