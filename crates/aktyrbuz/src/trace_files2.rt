// The exports for trace files of either version, told with their edition.
// The parameters of an export are C's, each slice and number a parameter of its own.
ghost use Rattle.std.specs.Prelude.{◌≡◌, length};
ghost use Rattle.reader.specs.Read.{rooms_of};
ghost use Rattle.trace2.specs.Read.{read_file_of};
ghost use Rattle.trace2.specs.Write.{write_file_of};
ghost use Rattle.aktyrbuz.specs.Exported.{read_leaves, write_leaves, write_export};
ghost use Rattle.aktyrbuz.specs.Trace2Exported.{file_export};

use shape::Description;
use told::tell;

pub fn aktyrbuz_trace_read2(
    bytes: &[u8],
    counts: &mut [u32],
    starts: &mut [f32],
    deltas: &mut [i32],
    coefficients: &mut [i32],
    answer: &mut [i64; 5],
) -> u32
    ensures { read_leaves result answer.new counts.new starts.new deltas.new coefficients.new
        ≡ file_export (read_file_of (rooms_of counts.old starts.old deltas.old coefficients.old) bytes.now) }
{
    tell(
        answer,
        trace2_read::trace_read2(bytes, counts, starts, deltas, coefficients),
    )
}

pub fn aktyrbuz_trace_write2(
    counts: &[u32],
    starts: &[f32],
    deltas: &[i32],
    coefficients: &[i32],
    adjustment: i32,
    version: u32,
    edition: u32,
    bytes: &mut [u8],
    answer: &mut [i64; 5],
) -> u32
    ensures { write_leaves result answer.new bytes.new
        ≡ write_export (write_file_of counts.now starts.now deltas.now coefficients.now adjustment version edition (length bytes.old)) }
{
    let description = Description {
        counts,
        starts,
        deltas,
        coefficients,
    };
    tell(
        answer,
        trace2_write::trace_write2(&description, adjustment, version, edition, bytes),
    )
}
