ghost use Rattle.std.specs.Prelude.{◌≡◌, ℕ, ◌+◌, ◌*◌, ◌<◌, ◌≤◌, ◌^◌, length, slice_index};
ghost use Rattle.bf_cells.specs.Rows.{piece_at, piece_below_at, piece_above_at};

// One piece of a list that is cut into pieces of one size.
#[inline]
pub(crate) fn piece(list: &[u32], size: usize, index: usize) -> &[u32]
    requires { size * index + size ≤ length list.now }
    ensures len { length result.now ≡ size }
    ensures cells { (k : ℕ) → k < size → slice_index result.now k ≡ piece_at list.now size index k }
{
    let start = size * index;
    &list[start..start + size]
}

// The piece before, or the edge where there is none.
#[inline]
pub(crate) fn piece_below<'a>(
    list: &'a [u32],
    edge: &'a [u32],
    size: usize,
    index: usize,
) -> &'a [u32]
    requires edge { length edge.now ≡ size }
    requires list { size * index + size ≤ length list.now }
    ensures len { length result.now ≡ size }
    ensures cells { (k : ℕ) → k < size
        → slice_index result.now k ≡ piece_below_at list.now edge.now size index k }
{
    if index == 0 {
        return edge;
    }
    piece(list, size, index - 1)
}

// The piece after, or the edge where there is none.
#[inline]
pub(crate) fn piece_above<'a>(
    list: &'a [u32],
    edge: &'a [u32],
    size: usize,
    count: usize,
    index: usize,
) -> &'a [u32]
    requires edge { length edge.now ≡ size }
    requires list { size * count ≤ length list.now }
    requires index { index < count }
    ensures len { length result.now ≡ size }
    ensures cells { (k : ℕ) → k < size
        → slice_index result.now k ≡ piece_above_at list.now edge.now size count index k }
{
    if index + 1 == count {
        return edge;
    }
    piece(list, size, index + 1)
}
