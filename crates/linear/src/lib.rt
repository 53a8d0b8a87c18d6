// The linear layer on three shares: a matrix of bits applied to each share, and a constant added to the first.
#![tactic(auto)]

ghost use Rattle.std.specs.Prelude.{◌≡◌, ◌≤◌, length};
ghost use Rattle.refusals.specs.Numbers.{refusal_of};
ghost use Rattle.shares.specs.Shares.{handed_shares};
ghost use Rattle.linear.specs.Layer.{layer, layer_refusal as layer_layer_refusal, mapped as layer_mapped};

use refusals::Refusal;
use shares::Shares;

// Row i gives output bit i: whether the row and the input have an odd number of ones in common.
pub fn linear_layer(
    input_width: u32,
    output_width: u32,
    rows: &[u8],
    constant: u32,
    share1: u32,
    share2: u32,
    share3: u32,
) -> Result<Shares, Refusal>
    ensures { handed_shares result ≡ layer input_width output_width rows.now constant share1 share2 share3 }
{
    layer_refusal(
        input_width,
        output_width,
        rows,
        constant,
        share1,
        share2,
        share3,
    )?;
    Ok(Shares {
        first: mapped(rows, share1) ^ constant,
        second: mapped(rows, share2),
        third: mapped(rows, share3),
    })
}

fn layer_refusal(
    input_width: u32,
    output_width: u32,
    rows: &[u8],
    constant: u32,
    share1: u32,
    share2: u32,
    share3: u32,
) -> Result<(), Refusal>
    ensures { refusal_of result ≡ layer_layer_refusal input_width output_width rows.now constant share1 share2 share3 }
{
    if refusals::outside(1, 8, input_width) {
        return Err(Refusal::InputWidth);
    }
    if refusals::outside(1, input_width, output_width) {
        return Err(Refusal::OutputWidth);
    }
    if rows.len() != output_width as usize {
        return Err(Refusal::RowCount);
    }
    if refusals::any_number_from(bits::power(input_width), rows) {
        return Err(Refusal::RowOrConstant);
    }
    if bits::power(output_width) <= constant {
        return Err(Refusal::RowOrConstant);
    }
    if refusals::any_number_from(bits::power(input_width), &[share1, share2, share3]) {
        return Err(Refusal::Input);
    }
    Ok(())
}

// The matrix applied to one share. The layer has checked that there are at most 8 rows, so it has a `requires`.
fn mapped(rows: &[u8], input: u32) -> u32
    requires { length rows.now ≤ 8 }
    ensures { result ≡ layer_mapped rows.now input }
{
    let mut output = 0;
    for (i, row) in rows.iter().enumerate() {
        let odd = u32::count_ones(*row as u32 & input) % 2;
        output |= odd << i;
    }
    output
}
