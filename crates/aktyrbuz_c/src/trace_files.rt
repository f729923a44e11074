// The exports for trace files: the list's two calls, over bytes.
// The parameters of an export are C's, each slice and number a parameter of its own.
ghost use Rattle.std.specs.Prelude.{◌≡◌, length};
ghost use Rattle.reader.specs.Read.{rooms_of};
ghost use Rattle.trace.specs.Read.{read_trace_of};
ghost use Rattle.trace.specs.Write.{write_trace_of};
ghost use Rattle.aktyrbuz.specs.Exported.{read_leaves, read_export, write_leaves, write_export};

#[unsafe(no_mangle)]
pub extern "C" fn aktyrbuz_trace_read(
    bytes: &[u8],
    counts: &mut [u32],
    starts: &mut [f32],
    deltas: &mut [i32],
    coefficients: &mut [i32],
    answer: &mut [i64; 5],
) -> u32
    ensures { read_leaves result answer.new counts.new starts.new deltas.new coefficients.new
        ≡ read_export (read_trace_of (rooms_of counts.old starts.old deltas.old coefficients.old) bytes.now) }
{
    aktyrbuz::trace_files::aktyrbuz_trace_read(bytes, counts, starts, deltas, coefficients, answer)
}

#[unsafe(no_mangle)]
pub extern "C" fn aktyrbuz_trace_write(
    counts: &[u32],
    starts: &[f32],
    deltas: &[i32],
    coefficients: &[i32],
    adjustment: i32,
    bytes: &mut [u8],
    answer: &mut [i64; 5],
) -> u32
    ensures { write_leaves result answer.new bytes.new
        ≡ write_export (write_trace_of counts.now starts.now deltas.now coefficients.now adjustment (length bytes.old)) }
{
    aktyrbuz::trace_files::aktyrbuz_trace_write(
        counts,
        starts,
        deltas,
        coefficients,
        adjustment,
        bytes,
        answer,
    )
}
