// The comparison of two tables' NashConv / U for C, by its number: an enum does not cross.
ghost use Rattle.std.specs.Prelude.{◌≡◌};
ghost use Rattle.comparison.specs.Order.{compared_quotients, number_of};

// How NashConv / units of one table stands to that of another: -1 is less, 0 equal, 1 greater.
#[unsafe(no_mangle)]
pub extern "C" fn chukkanalli_compare(
    nash_conv: u64,
    units: u64,
    other_nash_conv: u64,
    other_units: u64,
) -> i64
    ensures { result ≡ number_of (compared_quotients nash_conv units other_nash_conv other_units) }
{
    comparison::number(comparison::compare(nash_conv, units, other_nash_conv, other_units))
}
