// Tables as sheets have them, of entries up to 65535: how one is refused that has an entry above 255, and the bytes of one that has none.
#![tactic(auto)]

ghost use Rattle.refusals.specs.Numbers.{refusal_of};
ghost use Rattle.std.specs.Prelude.{◌≡◌, false, ◌≤◌, length};
ghost use Rattle.buffers.specs.Written.{in_front};
ghost use Rattle.wide_table.specs.Wide.{wide, wide_refusal as wide_wide_refusal};

use refusals::Refusal;

// What refuses a table with an entry above 255: 2 to 5 where one of these does, and then 6, whatever m is. Nothing where no entry is above
// 255. An entry is looked at as it was read, neither cut nor clamped.
pub fn wide_refusal(method: u32, n: u32, m: u32, table: &[u32]) -> Result<(), Refusal>
    ensures { refusal_of result ≡ wide_wide_refusal method n m table.now }
{
    if !refusals::any_number_from(256, table) {
        return Ok(());
    }
    if !methods::known(method) {
        return Err(Refusal::UnknownMethod);
    }
    if refusals::outside(1, 8, n) {
        return Err(Refusal::InputWidth);
    }
    if refusals::outside(1, 8, m) {
        return Err(Refusal::OutputWidth);
    }
    if table.len() != bits::power(n) as usize {
        return Err(Refusal::TableLength);
    }
    Err(Refusal::TableEntry)
}

// The entries as bytes, in front. Each fits one, and there is room for them, so it has a `requires`.
pub fn narrow(table: &[u32], bytes: &mut [u8])
    requires { (wide table.now ≡ false) × (length table.now ≤ length bytes.old) }
    ensures { bytes.new ≡ in_front table.now bytes.old }
{
    for (i, entry) in table.iter().enumerate() {
        bytes[i] = *entry as u8;
    }
}
