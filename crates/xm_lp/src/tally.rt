//! Sums column by column, within 128 bits.

ghost use Rattle.std.specs.Prelude.{◌≡◌, ◌+ℤ◌, ◌*ℤ◌, ℕ, false, SomeIff, IsTrue};
ghost use Rattle.xm_rows.specs.Row.{Fits128, IsRow};
ghost use Rattle.xm_lp.specs.Answer.{number_at};
ghost use Rattle.xm_lp.specs.Lemmas.Tally.{AddingLeaves, AreAdded, SumFits};

use xm_rows::{Row, product, sum};

/// `total + a * b`, or `None` where the product or the sum leaves 128 bits.
pub(crate) fn add_product(total: i128, a: i128, b: i128) -> Option<i128>
    ensures { SomeIff result (SumFits total a b) (total +ℤ (a *ℤ b)) }
{
    let term = product(a, b)?;
    sum(total, term)
}

/// Adds `multiplier` times each entry of the row, in the columns that there are. Whether all products and
/// sums stay within 128 bits; where not, the sums are of no use.
pub(crate) fn add_products(sums: &mut [i128], multiplier: i128, row: &Row) -> bool
    requires { (k : ℕ) → Fits128 (number_at sums.old k) }
    ensures added { IsTrue result → AreAdded sums.old multiplier row.now.entries sums.new }
    ensures row { IsRow row.now }
    ensures leaves { result ≡ false → AddingLeaves sums.old multiplier row.now.entries }
{
    for entry in row.entries() {
        let k = entry.column as usize;
        if k < sums.len() {
            let Some(total) = add_product(sums[k], multiplier, entry.value) else {
                return false;
            };
            sums[k] = total;
        }
    }
    true
}
