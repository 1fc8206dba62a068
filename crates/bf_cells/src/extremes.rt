ghost use Rattle.std.specs.Prelude.{◌≡◌, ◌<◌, length};
ghost use Rattle.bf_cells.specs.Grid.{greatest_of, least_of};

// The greatest value, or 0 of none.
pub(crate) fn greatest(values: &[u32]) -> u32
    ensures { result ≡ greatest_of values.now }
{
    values.iter().fold(0, |most, value| most.max(*value))
}

// The least value.
pub(crate) fn least(values: &[u32]) -> u32
    requires { 0 < length values.now }
    ensures { result ≡ least_of values.now }
{
    values
        .iter()
        .fold(values[0], |least, value| least.min(*value))
}
