// Numbers brought to the size of a picture.
ghost use Rattle.std.specs.Prelude.{◌≡◌, ◌*◌, ◌/◌, ◌<◌, ◌≤◌, min};
ghost use Rattle.plots.specs.Scales.{IsRound};

// A value on a scale of some length, of which the whole is as long as the scale; past the whole it
// stays at the end.
pub(crate) fn scale(value: u64, whole: u64, length: u32) -> u32
    requires { 1 ≤ whole }
    ensures within { result ≤ length }
    ensures placed { result ≡ min value whole * length / whole }
{
    let within = u128::from(value.min(whole)) * u128::from(length);
    (within / u128::from(whole)) as u32
}

// The step between the marks of an axis: the least of 1, 2, 5, 10, 20, 50 and so on by which at most
// ten steps fit the span.
pub(crate) fn tick_step(span: u32) -> u32
    ensures round { IsRound result }
    ensures few { span / result ≤ 10 }
    ensures many { 10 < span → 4 * result ≤ span }
{
    let mut power = 1;
    while span / power > 100 {
        power *= 10;
    }
    if span / power <= 10 {
        power
    } else if span / (2 * power) <= 10 {
        2 * power
    } else if span / (5 * power) <= 10 {
        5 * power
    } else {
        10 * power
    }
}
