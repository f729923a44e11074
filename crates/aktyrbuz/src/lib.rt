// The exported functions, on numbers and slices; the crate `aktyrbuz_c` hands them to C.
// Every call but the logarithm returns its code's number and fills five numbers: the place, then the counts, then zeros.
// The parameters of an export are C's, each slice and number a parameter of its own.
#![tactic(auto)]

ghost use Rattle.std.specs.Prelude.{◌≡◌, length};
ghost use Rattle.approximations.specs.Ln.{ln_of};
ghost use Rattle.reader.specs.Read.{read_outcome, rooms_of};
ghost use Rattle.writer.specs.Write.{write_of};
ghost use Rattle.dequantize.specs.Judge.{description_of};
ghost use Rattle.table.specs.Table.{setting_of, build_of};
ghost use Rattle.table.specs.Table as build;
ghost use Rattle.desks.specs.Desks.{sight_of};
ghost use Rattle.draw.specs.Draw.{table_of, three, draw_of};
ghost use Rattle.hull.specs.Reach.{reach_of};
ghost use Rattle.aktyrbuz.specs.Exported.{read_leaves, read_export, write_leaves, write_export, build_leaves, build_export, draw_leaves, draw_export, reach_leaves, reach_export};

pub mod bands_summary;
pub mod hiding;
pub mod makers_tables;
pub mod polylines;
pub mod profiles;
pub mod trace_files;
pub mod trace_files2;

use checks::Table;
use desks::Sight;
use shape::Description;
use table::Setting;
use told::tell;

// The natural logarithm of an f32.
pub fn aktyrbuz_ln(x: f32) -> f32
    ensures { result ≡ ln_of x }
{
    approximations::ln(x)
}

pub fn aktyrbuz_read(
    list: &[u32],
    configured: u32,
    pixels: u32,
    counts: &mut [u32],
    starts: &mut [f32],
    deltas: &mut [i32],
    coefficients: &mut [i32],
    answer: &mut [i64; 5],
) -> u32
    ensures { read_leaves result answer.new counts.new starts.new deltas.new coefficients.new
        ≡ read_export (read_outcome configured pixels (rooms_of counts.old starts.old deltas.old coefficients.old) list.now) }
{
    tell(
        answer,
        reader::read(
            list,
            configured,
            pixels,
            counts,
            starts,
            deltas,
            coefficients,
        ),
    )
}

pub fn aktyrbuz_write(
    counts: &[u32],
    starts: &[f32],
    deltas: &[i32],
    coefficients: &[i32],
    adjustment: i32,
    configured: u32,
    pixels: u32,
    list: &mut [u32],
    answer: &mut [i64; 5],
) -> u32
    ensures { write_leaves result answer.new list.new
        ≡ write_export (write_of counts.now starts.now deltas.now coefficients.now adjustment configured pixels (length list.old)) }
{
    let description = Description {
        counts,
        starts,
        deltas,
        coefficients,
    };
    tell(
        answer,
        writer::write(&description, adjustment, configured, pixels, list),
    )
}

pub fn aktyrbuz_build(
    counts: &[u32],
    starts: &[f32],
    deltas: &[i32],
    coefficients: &[i32],
    adjustment: i32,
    width: u32,
    height: u32,
    y_to_x: f32,
    y_to_b: f32,
    high_precision: bool,
    level10: bool,
    path: &mut [f32],
    walk: &mut [f32],
    segments: &mut [f32],
    owners: &mut [u64],
    row_starts: &mut [u32],
    entries: &mut [u32],
    answer: &mut [i64; 5],
) -> u32
    ensures { build_leaves result answer.new path.new walk.new segments.new owners.new row_starts.new entries.new
        ≡ build_export (build_of (description_of counts.now starts.now deltas.now coefficients.now) (setting_of adjustment width height y_to_x y_to_b high_precision level10) (build.rooms_of path.old walk.old segments.old owners.old row_starts.old entries.old)) }
{
    let description = Description {
        counts,
        starts,
        deltas,
        coefficients,
    };
    let setting = Setting {
        adjustment,
        width,
        height,
        y_to_x,
        y_to_b,
        high_precision,
        level10,
    };
    tell(
        answer,
        table::build(
            &description,
            setting,
            path,
            walk,
            segments,
            owners,
            row_starts,
            entries,
        ),
    )
}

pub fn aktyrbuz_draw(
    segments: &[f32],
    owners: &[u64],
    segment_count: u32,
    entries: &[u32],
    entry_count: u32,
    row_starts: &[u32],
    height: u32,
    splines: u64,
    bits: &[u8],
    desk: u32,
    y: u32,
    x0: u32,
    n: u32,
    r0: &mut [f32],
    r1: &mut [f32],
    r2: &mut [f32],
    answer: &mut [i64; 5],
) -> u32
    ensures { draw_leaves result answer.new (three r0.new r1.new r2.new)
        ≡ draw_export (draw_of (table_of segments.now segment_count entries.now entry_count row_starts.now height) (sight_of owners.now splines bits.now desk) y x0 n (three r0.old r1.old r2.old)) }
{
    let table = Table {
        segments,
        segment_count,
        entries,
        entry_count,
        row_starts,
        height,
    };
    let sight = Sight {
        owners,
        splines,
        bits,
        desk,
    };
    tell(answer, draw::draw(&table, &sight, y, x0, n, r0, r1, r2))
}

pub fn aktyrbuz_reach(
    segments: &[f32],
    owners: &[u64],
    segment_count: u32,
    entries: &[u32],
    entry_count: u32,
    row_starts: &[u32],
    height: u32,
    splines: u64,
    bits: &[u8],
    desk: u32,
    y: u32,
    width: u32,
    answer: &mut [i64; 5],
) -> u32
    ensures { reach_leaves result answer.new
        ≡ reach_export (reach_of (table_of segments.now segment_count entries.now entry_count row_starts.now height) (sight_of owners.now splines bits.now desk) y width) }
{
    let table = Table {
        segments,
        segment_count,
        entries,
        entry_count,
        row_starts,
        height,
    };
    let sight = Sight {
        owners,
        splines,
        bits,
        desk,
    };
    tell(answer, hull::reach(&table, &sight, y, width))
}
