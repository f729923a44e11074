// The layers of the port against stored answers, a function a kind: whether the answer to a case's input words is its output words.
#![tactic(auto)]

ghost use Rattle.std.specs.Prelude.{◌≡◌, true, ◌*◌, length, get_or, Some, eqb};
ghost use Rattle.segments.specs.Segment.{add_segment};
ghost use Rattle.walk.specs.Walk.{walk_in};
ghost use Rattle.checks.specs.Tables as tables;
ghost use Rattle.draw.specs.Draw.{three};
ghost use Rattle.stored.specs.Stored.{float_in};
ghost use Rattle.replay_layers.specs.Agreed.{part, TransformAgrees, MadeAgrees, WalkAgrees, path_in, ChannelsAgree, DrawAgrees, table_in, starts_end};

use checks::Table;
use dequantize::Spline;
use desks::Sight;
use segments::{Range, Segment};

// ---- the transform

// A spline whose four rows are one.
fn all_rows(row: [f32; 32]) -> Spline
    ensures { result.x ≡ row }
{
    Spline {
        x: row,
        y: row,
        b: row,
        sigma: row,
        estimate: 0,
        coincide: false,
    }
}

pub fn transform(input: &[u32], output: &[u32]) -> bool
    ensures { result ≡ true → TransformAgrees input.now output.now }
{
    if input.len() != 33 {
        return false;
    }
    let t = stored::float(input[32]);
    let mut row = [0.0f32; 32];
    stored::floats(input, &mut row);
    let sums = transform::sums_at(all_rows(row), t);
    stored::is_only_float(sums.x, output)
}

// ---- segments

// The rows of a segment against the first and one past the last; all ones stand for more than 65536 rows, and no rows are two zeros.
fn rows_agree(rows: Range, first: u64, past: u64) -> bool {
    if first == 18446744073709551615 {
        return rows.past > 65536;
    }
    if first == past {
        return rows.past <= rows.first;
    }
    u64::from(rows.first) == first.min(16777216) && u64::from(rows.past) == past.min(16777217)
}

// The columns of a segment against the bits of the first 64 pixels.
fn columns_agree(columns: Range, pixels: u64) -> bool {
    let mut left = pixels;
    for x in 0..64u32 {
        let touched = left % 2 == 1;
        let inside = columns.first <= x && x < columns.past;
        if touched != inside {
            return false;
        }
        left /= 2;
    }
    true
}

// The eight floats of a segment that was made, its rows and its columns.
fn is_made(segment: Segment, output: &[u32]) -> bool
    ensures { result ≡ true → MadeAgrees (Some segment) output.now }
{
    let mut eight = [0.0f32; 8];
    segment.put(&mut eight, 0);
    output.len() == 15
        && output[0] == 1
        && rows_agree(
            segment.rows(),
            stored::long(output[9], output[10]),
            stored::long(output[11], output[12]),
        )
        && columns_agree(segment.columns(), stored::long(output[13], output[14]))
        && stored::begin_f32(&eight, &output[1..9])
}

fn is_nothing(output: &[u32]) -> bool
    ensures { result ≡ true → get_or output.now 0 0 ≡ 0 }
{
    output.len() == 1 && output[0] == 0
}

fn is_added(added: Option<Segment>, output: &[u32]) -> bool
    ensures { result ≡ true → MadeAgrees added output.now }
{
    match added {
        None => is_nothing(output),
        Some(segment) => is_made(segment, output),
    }
}

pub fn segment(input: &[u32], output: &[u32]) -> bool
    ensures { result ≡ true → MadeAgrees (add_segment (float_in input.now 0) (float_in input.now 1) (float_in input.now 2) (float_in input.now 3) (float_in input.now 4) (float_in input.now 5) (float_in input.now 6) (eqb (get_or input.now 7 0) 1)) output.now }
{
    if input.len() != 8 {
        return false;
    }
    let mut given = [0.0f32; 8];
    stored::floats(input, &mut given);
    let added = segments::add_segment(
        given[0],
        given[1],
        given[2],
        given[3],
        given[4],
        given[5],
        given[6],
        input[7] == 1,
    );
    is_added(added, output)
}

// ---- the walk

pub fn walk(input: &[u32], output: &[u32]) -> bool
    ensures { result ≡ true → WalkAgrees (walk_in 170 (path_in input.now)) output.now }
{
    let n = input.len();
    if n < 2 {
        return false;
    }
    if 256 < n {
        return false;
    }
    let mut path = [0.0f32; 256];
    stored::floats(input, &mut path);
    let mut steps = [0.0f32; 512];
    match walk::walk(&path[..n], &mut steps) {
        None => false,
        Some(k) => k == output.len() / 3 && stored::begin_f32(&steps, output),
    }
}

// ---- drawing

fn channels_agree(r0: &[f32], r1: &[f32], r2: &[f32], n: usize, words: &[u32]) -> bool
    requires { 3 * n ≡ length words.now }
    ensures { result ≡ true → ChannelsAgree n (three r0.now r1.now r2.now) words.now }
{
    stored::begin_f32(r0, &words[0..n])
        && stored::begin_f32(r1, &words[n..2 * n])
        && stored::begin_f32(r2, &words[2 * n..3 * n])
}

// Whether the three channels are drawn to the words that are stored.
fn draws(table: &Table<'_>, y: u32, x0: u32, n: u32, before: &[u32], after: &[u32]) -> bool
    requires { (3 * n ≡ length before.now) × (3 * n ≡ length after.now) }
    ensures { result ≡ true → DrawAgrees (tables.table_in table.now) y x0 n before.now after.now }
{
    let k = n as usize;
    let mut r0 = [0.0f32; 64];
    let mut r1 = [0.0f32; 64];
    let mut r2 = [0.0f32; 64];
    stored::floats(&before[0..k], &mut r0);
    stored::floats(&before[k..2 * k], &mut r1);
    stored::floats(&before[2 * k..3 * k], &mut r2);
    let owners = [0u64; 64];
    let bits = [0u8; 1];
    let sight = Sight {
        owners: &owners,
        splines: 1,
        bits: &bits,
        desk: 0,
    };
    match draw::draw(table, &sight, y, x0, n, &mut r0, &mut r1, &mut r2) {
        Err(_) => false,
        Ok(_) => channels_agree(&r0, &r1, &r2, k, after),
    }
}

pub fn draw(input: &[u32], output: &[u32]) -> bool
    ensures { result ≡ true → DrawAgrees (table_in input.now) (get_or input.now 3 0) (get_or input.now 4 0) (get_or input.now 5 0) (part (starts_end input.now) (length input.now) input.now) output.now }
{
    if input.len() < 6 {
        return false;
    }
    let m = frame::count(input[0]);
    let e = frame::count(input[1]);
    let h = frame::count(input[2]);
    let n = frame::count(input[5]);
    let segments_end = 6 + 8 * m;
    let entries_end = segments_end + e;
    let starts_end = entries_end + h + 1;
    if input.len() != starts_end + 3 * n {
        return false;
    }
    if output.len() != 3 * n {
        return false;
    }
    let mut segments = [0.0f32; 512];
    stored::floats(&input[6..segments_end], &mut segments);
    let table = Table {
        segments: &segments,
        segment_count: input[0],
        entries: &input[segments_end..entries_end],
        entry_count: input[1],
        row_starts: &input[entries_end..starts_end],
        height: input[2],
    };
    draws(
        &table,
        input[3],
        input[4],
        input[5],
        &input[starts_end..],
        output,
    )
}
