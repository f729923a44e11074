// The exports for line drawings: the control points of one spline as a points text, and back.
// The parameters of an export are C's, each slice and number a parameter of its own.
ghost use Rattle.std.specs.Prelude.{◌≡◌, length};
ghost use Rattle.polyline.specs.Read.{read_points_of};
ghost use Rattle.polyline.specs.Write.{write_points_of};
ghost use Rattle.aktyrbuz.specs.Exported.{write_leaves, write_export};
ghost use Rattle.aktyrbuz.specs.Polylines.{points_leaves, points_export};

#[unsafe(no_mangle)]
pub extern "C" fn aktyrbuz_points_read(
    text: &[u8],
    start: &mut [f32],
    deltas: &mut [i32],
    answer: &mut [i64; 5],
) -> u32
    ensures { points_leaves result answer.new start.new deltas.new
        ≡ points_export (read_points_of (length start.old) (length deltas.old) text.now) }
{
    aktyrbuz::polylines::aktyrbuz_points_read(text, start, deltas, answer)
}

#[unsafe(no_mangle)]
pub extern "C" fn aktyrbuz_points_write(
    counts: &[u32],
    starts: &[f32],
    deltas: &[i32],
    coefficients: &[i32],
    spline: u64,
    text: &mut [u8],
    answer: &mut [i64; 5],
) -> u32
    ensures { write_leaves result answer.new text.new
        ≡ write_export (write_points_of counts.now starts.now deltas.now coefficients.now spline (length text.old)) }
{
    aktyrbuz::polylines::aktyrbuz_points_write(
        counts,
        starts,
        deltas,
        coefficients,
        spline,
        text,
        answer,
    )
}
