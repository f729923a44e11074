// The build of the port against stored answers: whether what it answers to a case's input words, and leaves in the lent buffers, is the
// case's output words.
#![tactic(auto)]

ghost use Rattle.std.specs.Prelude.{◌≡◌, true, ◌≤◌, length, get_or};
ghost use Rattle.stored.specs.Stored.{BeginsWith};
ghost use Rattle.shape.specs.Description.{description_of};
ghost use Rattle.shape.specs.Description as descriptions;
ghost use Rattle.table.specs.Table.{build_of};
ghost use Rattle.replay_build.specs.Built.{Headed, TableAgrees, RefusalAgrees, AnswerAgrees, BuildAgrees, lent, image_in, floats_in, signeds_in, description_in};

use build_answer::Built;
use codes::{Code, Refusal};
use shape::Description;
use table::Setting;

// ---- the answer against the output words

// The code and the place of a success, and the three counts.
fn is_head(built: Built, output: &[u32]) -> bool
    ensures { result ≡ true → Headed built output.now }
{
    output.len() >= 6
        && output[0] == 0
        && output[1] == 0
        && output[2] == built.segments
        && output[3] == built.entries
        && built.estimate == stored::long(output[4], output[5])
}

// Whether the owners begin with these words: a number each.
fn begin_owners(owners: &[u64], words: &[u32]) -> bool
    ensures { result ≡ true → BeginsWith owners.now words.now }
{
    for (i, word) in words.iter().enumerate() {
        if owners.len() <= i {
            return false;
        }
        if owners[i] != u64::from(*word) {
            return false;
        }
    }
    true
}

// Behind them the numbers of the segments, their owners, the row starts and the entries.
fn is_table(
    built: Built,
    height: u32,
    segments: &[f32],
    owners: &[u64],
    row_starts: &[u32],
    entries: &[u32],
    output: &[u32],
) -> bool
    ensures { result ≡ true → TableAgrees built height segments.now owners.now row_starts.now entries.now output.now }
{
    if !is_head(built, output) {
        return false;
    }
    let count = built.segments as usize;
    let numbers_end = 6 + 8 * count;
    let owners_end = numbers_end + count;
    let starts_end = owners_end + (height as usize) + 1;
    output.len() == starts_end + (built.entries as usize)
        && stored::begin_f32(segments, &output[6..numbers_end])
        && begin_owners(owners, &output[numbers_end..owners_end])
        && stored::begin_u32(row_starts, &output[owners_end..starts_end])
        && stored::begin_u32(entries, &output[starts_end..])
}

fn is_refusal(code: Code, place: usize, output: &[u32]) -> bool
    ensures { result ≡ true → RefusalAgrees code place output.now }
{
    output.len() == 2
        && frame::count(output[1]) == place
        && stored::refusal_word(u32::from(code)) == output[0]
}

fn is_answer(
    answer: Result<Built, Refusal>,
    height: u32,
    segments: &[f32],
    owners: &[u64],
    row_starts: &[u32],
    entries: &[u32],
    output: &[u32],
) -> bool
    ensures { result ≡ true → AnswerAgrees answer height segments.now owners.now row_starts.now entries.now output.now }
{
    match answer {
        Err((code, place)) => is_refusal(code, place, output),
        Ok(built) => is_table(built, height, segments, owners, row_starts, entries, output),
    }
}

// ---- the build of the input words

// Whether a description is built to the output, in an image that the first words of the input give.
fn is_built(description: &Description<'_>, input: &[u32], output: &[u32]) -> bool
    requires { 9 ≤ length input.now }
    ensures { result ≡ true → BuildAgrees (build_of (descriptions.description_in description.now) (image_in input.now) lent) (get_or input.now 1 0) output.now }
{
    let adjustment = stored::signed_word(input[8]);
    let y_to_x = stored::float(input[2]);
    let y_to_b = stored::float(input[3]);
    let setting = Setting {
        adjustment,
        width: input[0],
        height: input[1],
        y_to_x,
        y_to_b,
        high_precision: input[4] == 1,
        level10: input[5] == 1,
    };
    let mut path = [0.0f32; 256];
    let mut walk = [0.0f32; 2048];
    let mut segments = [0.0f32; 1024];
    let mut owners = [0u64; 128];
    let mut row_starts = [0u32; 256];
    let mut entries = [0u32; 512];
    let answer = table::build(
        description,
        setting,
        &mut path,
        &mut walk,
        &mut segments,
        &mut owners,
        &mut row_starts,
        &mut entries,
    );
    is_answer(
        answer,
        input[1],
        &segments,
        &owners,
        &row_starts,
        &entries,
        output,
    )
}

// The same, of a description whose parts are still words.
fn is_built_from(
    counts: &[u32],
    starts: &[u32],
    deltas: &[u32],
    coefficients: &[u32],
    input: &[u32],
    output: &[u32],
) -> bool
    requires { 9 ≤ length input.now }
    ensures { result ≡ true → BuildAgrees (build_of (description_of counts.now (floats_in starts.now) (signeds_in 2048 deltas.now) (signeds_in 1024 coefficients.now)) (image_in input.now) lent) (get_or input.now 1 0) output.now }
{
    if 16 < starts.len() {
        return false;
    }
    if 2048 < deltas.len() {
        return false;
    }
    if 1024 < coefficients.len() {
        return false;
    }
    let mut floats = [0.0f32; 16];
    stored::floats(starts, &mut floats);
    let mut seconds = [0i32; 2048];
    stored::signeds(deltas, &mut seconds);
    let mut factors = [0i32; 1024];
    stored::signeds(coefficients, &mut factors);
    let description = Description {
        counts,
        starts: &floats[..starts.len()],
        deltas: &seconds[..deltas.len()],
        coefficients: &factors[..coefficients.len()],
    };
    is_built(&description, input, output)
}

pub fn build(input: &[u32], output: &[u32]) -> bool
    ensures { result ≡ true → BuildAgrees (build_of (description_in input.now) (image_in input.now) lent) (get_or input.now 1 0) output.now }
{
    if input.len() < 9 {
        return false;
    }
    let splines = frame::count(input[6]);
    let points = frame::count(input[7]);
    let counts_end = 9 + splines;
    let starts_end = counts_end + 2 * splines;
    let deltas_end = starts_end + 2 * points;
    if input.len() != deltas_end + 128 * splines {
        return false;
    }
    is_built_from(
        &input[9..counts_end],
        &input[counts_end..starts_end],
        &input[starts_end..deltas_end],
        &input[deltas_end..],
        input,
        output,
    )
}
