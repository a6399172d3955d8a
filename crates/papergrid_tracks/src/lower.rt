//! Moves boundaries that are past their highest positions.

ghost use Rattle.std.specs.Prelude.{◌≡◌, ℕ, ◌+◌, ◌<◌, ◌≤◌, min, length, slice_index};
ghost use Rattle.papergrid_tracks.specs.TrackBoundaries.{boundaries_of, sizes_between};

/// Moves each boundary of the sizes that is past its highest position there.
pub fn lower_boundaries(sizes: &mut [usize], highest_position: &[usize])
    requires one_more { length highest_position.now ≡ length sizes.old + 1 }
    requires rise { (i : ℕ) → i < length sizes.old →
        slice_index highest_position.now i ≤ slice_index highest_position.now (i + 1) }
    ensures { sizes.new ≡ sizes_between (length sizes.old)
        (λ i. min (boundaries_of sizes.old i) (slice_index highest_position.now i)) }
{
    let mut given = 0usize;
    let mut boundary = 0usize;
    for i in 0..sizes.len() {
        given = given.saturating_add(sizes[i]);
        let next = given.min(highest_position[i + 1]);
        sizes[i] = next - boundary;
        boundary = next;
    }
}
