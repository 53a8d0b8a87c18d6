// A log's parts: their kinds, and each part at its fixed position, the head first, turn a behind the turns before it, the end behind the last
// turn. The calls have measured the log, so the functions that write have a `requires`.
ghost use Rattle.std.specs.Prelude.{◌≡◌, ◌+◌, ◌*◌, ◌^◌, ◌≤◌, ◌<◌, length};
ghost use Rattle.buffers.specs.Written.{written};
ghost use Rattle.log_entries.specs.Entries.{entries};

// The kinds in the order of the log. Where a log has two passes, those of a turn of either are one list.
#[derive(Drop)]
pub struct Parts<const HEAD: usize, const TURN: usize, const END: usize> {
    pub head: [u8; HEAD],
    pub turn: [u8; TURN],
    pub end: [u8; END],
}

impl<const HEAD: usize, const TURN: usize, const END: usize> Parts<HEAD, TURN, END> {
    // How many entries the log has, for so many turns.
    pub fn log_length(&self, turns: u16) -> usize
        requires { HEAD + TURN * turns + END < 2 ^ 64 }
        ensures { result ≡ HEAD + TURN * turns + END }
    {
        HEAD + TURN * turns as usize + END
    }

    pub fn put_head(&self, log: &mut [u32], values: [u8; HEAD])
        requires { HEAD ≤ length log.old }
        ensures { log.new ≡ written log.old 0 (entries self.now.head values.entry) }
    {
        crate::put(log, 0, &self.head, &values);
    }

    pub fn put_turn(&self, log: &mut [u32], a: u16, values: [u8; TURN])
        requires { HEAD + TURN * (a + 1) ≤ length log.old }
        ensures { log.new ≡ written log.old (HEAD + TURN * a) (entries self.now.turn values.entry) }
    {
        crate::put(log, HEAD + TURN * a as usize, &self.turn, &values);
    }

    pub fn put_end(&self, log: &mut [u32], turns: u16, values: [u8; END])
        requires { HEAD + TURN * turns + END ≤ length log.old }
        ensures { log.new ≡ written log.old (HEAD + TURN * turns) (entries self.now.end values.entry) }
    {
        crate::put(log, HEAD + TURN * turns as usize, &self.end, &values);
    }
}
