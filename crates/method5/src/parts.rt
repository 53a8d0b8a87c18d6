// The kinds of method 5's log, its length, and the turns of its two passes at their fixed positions, those of the first behind the head, those
// of the second behind them. The calls have measured the log, so the functions that write have a `requires`.
ghost use Rattle.std.specs.Prelude.{◌≡◌, ◌+◌, ◌*◌, ◌≤◌, length};
ghost use Rattle.buffers.specs.Written.{written};
ghost use Rattle.log_entries.specs.Entries.{entries};
ghost use Rattle.lookup.specs.Layout.{layout_size};
ghost use Rattle.lookup.specs.Row.{kinds};
ghost use Rattle.lookup.specs.Method5.{head_5, first_pass_5, half_pass_5, method_5};

use log_entries::Parts;

// The kinds in the order of the log: a turn of the first pass has the first four of a turn's, one of the second the others.
// docs/REFERENCE.md says what each shows.
pub const PARTS: Parts<5, 8, 2> = Parts {
    head: [1, 2, 3, 4, 5],
    turn: [6, 7, 8, 9, 6, 10, 11, 12],
    end: [1, 13],
};

// How many entries the log has, for so many turns of each pass.
pub fn log_length(turns: u16) -> usize
    ensures { result ≡ layout_size turns method_5.layout }
{
    PARTS.log_length(turns)
}

pub fn put_first_turn(log: &mut [u32], a: u16, values: [u8; 4])
    requires { length head_5 + length first_pass_5 * (a + 1) ≤ length log.old }
    ensures { log.new ≡ written log.old (length head_5 + length first_pass_5 * a)
        (entries (kinds first_pass_5) values) }
{
    log_entries::put(
        log,
        PARTS.head.len() + values.len() * a as usize,
        &PARTS.turn[..4],
        &values,
    );
}

pub fn put_second_turn(log: &mut [u32], turns: u16, a: u16, values: [u8; 4])
    requires { length head_5 + length first_pass_5 * turns + length half_pass_5 * (a + 1) ≤ length log.old }
    ensures { log.new ≡ written log.old (length head_5 + length first_pass_5 * turns + length half_pass_5 * a)
        (entries (kinds half_pass_5) values) }
{
    let start = PARTS.head.len() + values.len() * turns as usize;
    log_entries::put(
        log,
        start + values.len() * a as usize,
        &PARTS.turn[4..],
        &values,
    );
}
