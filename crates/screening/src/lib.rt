// A look at a run of random bytes, byte after byte, so that a noise source that is stuck is noticed: no value may stand more than 20 times
// in 512 consecutive bytes.
#![tactic(auto)]

ghost use Rattle.std.specs.Prelude.{◌≡◌, ◌+◌, ◌-◌, ◌≤◌, ◌<◌};
ghost use Rattle.table.specs.Balanced.{at};
ghost use Rattle.screening.specs.Report.{report};
ghost use Rattle.screening.specs.Window.{empty_window, without, with_one};

// The last 512 bytes, byte i of a run at i mod 512, and how often each value stands among them.
#[derive(Clone, Copy)]
pub struct Window {
    pub ring: [u8; 512],
    pub counts: [u16; 256],
}

// Where the first faulty window of a run starts, counted from 0, if one is faulty. A run may have any length; nothing is refused.
#[tactic(auto, unfolding(crate::specs::Window::empty_window))]
pub fn screen(run: &[u8]) -> Option<usize>
    ensures { result ≡ report run.now }
{
    let window = Window {
        ring: [0; 512],
        counts: [0; 256],
    };
    fed(window, run)
}

// Feeds an empty window with the bytes of a run, until a value stands in it too often. The window comes by value, once a run: handed
// over with each byte it would be copied with each byte.
fn fed(mut window: Window, run: &[u8]) -> Option<usize>
    requires { window ≡ empty_window }
    ensures { result ≡ report run.now }
{
    for (position, &byte) in run.iter().enumerate() {
        let place = position % 512;
        let leaving = window.ring[place];
        window.ring[place] = byte;
        take_off(&mut window.counts, position, leaving);
        if 20 < add(&mut window.counts, byte) {
            return Some(start_of(position));
        }
    }
    None
}

// The start of the window that a byte ends, 0 for each of the first 512 bytes.
fn start_of(position: usize) -> usize
    ensures { result ≡ position + 1 - 512 }
{
    if position < 511 {
        return 0;
    }
    position - 511
}

// Takes the byte that leaves off its count, from position 512 on.
#[tactic(auto, using(crate::proofs::Holding::none_leaves, crate::proofs::Holding::one_leaves), unfolding(table::specs::Balanced::at))]
fn take_off(counts: &mut [u16; 256], position: usize, byte: u8)
    requires { 512 ≤ position → 0 < at counts.old byte }
    ensures { counts.new ≡ without position byte counts.old }
{
    if position < 512 {
        return;
    }
    counts[byte as usize] -= 1;
}

// Adds a byte to its count, and tells the count.
#[tactic(auto, unfolding(table::specs::Balanced::at, crate::specs::Window::with_one))]
fn add(counts: &mut [u16; 256], byte: u8) -> u16
    requires { at counts.old byte ≤ 20 }
    ensures value { result ≡ at counts.old byte + 1 }
    ensures counts_after { counts.new ≡ with_one byte counts.old }
{
    let often = counts[byte as usize] + 1;
    counts[byte as usize] = often;
    often
}
