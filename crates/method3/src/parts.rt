// The kinds of method 3's log, and its length.
ghost use Rattle.std.specs.Prelude.{◌≡◌};
ghost use Rattle.lookup.specs.Layout.{layout_size};
ghost use Rattle.lookup.specs.Method3.{method_3};

use log_entries::Parts;

// The kinds in the order of the log. docs/REFERENCE.md says what each shows.
pub const PARTS: Parts<8, 9, 2> = Parts {
    head: [11, 1, 2, 3, 4, 6, 5, 18],
    turn: [7, 8, 9, 17, 10, 12, 13, 14, 15],
    end: [6, 16],
};

// How many entries the log has, for so many turns.
pub fn log_length(turns: u16) -> usize
    ensures { result ≡ layout_size turns method_3.layout }
{
    PARTS.log_length(turns)
}
