// Division by the period of a row, with no division where its ratio is known.
ghost use Rattle.std.specs.Prelude.{◌≡◌, ◌/◌, ◌<◌, ◌^◌};
ghost use Rattle.rows.specs.Counting.{is_on_frame};
ghost use Rattle.bounds.specs.Ratios.{ratio_of};

use rows::Row;

// A number divided by the period of a row whose ratio is known: the product by the ratio is at most
// one too low.
pub(crate) fn quotient(x: u32, row: &Row, ratio: u32) -> u32
    requires known { ratio ≡ ratio_of row.now }
    requires room { x < 2 ^ 31 }
    ensures { result ≡ x / row.now.period }
{
    let told = (u64::from(x) * u64::from(ratio) / 4_294_967_296) as u32;
    if x - told * row.period < row.period {
        told
    } else {
        told + 1
    }
}

// Whether the period of a row whose ratio is known divides a number.
pub(crate) fn goes_into(x: u32, row: &Row, ratio: u32) -> bool
    requires known { ratio ≡ ratio_of row.now }
    requires room { x < 2 ^ 31 }
    ensures { result ≡ is_on_frame x row.now }
{
    quotient(x, row, ratio) * row.period == x
}
