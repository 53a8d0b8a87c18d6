// What the runs of the methods are handed: the calls have checked the case, and measured its table.
ghost use Rattle.std.specs.Prelude.{◌≡◌, ◌^◌, length};
ghost use Rattle.lookup.specs.Bounded.{Bounded};

use crate::Case;

#[derive(Clone, Copy)]
pub struct Lookup<'a> {
    pub case: Case,
    pub table: &'a [u8],
    pub ghost bounded: { Bounded case },
    pub ghost table_len: { length table.now ≡ 2 ^ case.n },
}
