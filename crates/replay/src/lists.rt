// Reading and writing of the port against stored answers.
use codes::Refusal;
use read_list::Read;
use shape::Description;

// More than any stored list asks for.
const SPLINES: usize = 16;

const STARTS: usize = 32;

const DELTAS: usize = 256;

const COEFFICIENTS: usize = 2048;

const VALUES: usize = 4096;

// Whether the values begin with the signed numbers of these words.
fn begin_i32(values: &[i32], words: &[u32]) -> bool {
    words.len() <= values.len()
        && values
            .iter()
            .zip(words)
            .all(|(&value, &word)| value == stored::signed_word(word))
}

// Whether words are what the buffers begin with: S counts, 2S starts, 2P double deltas, 128S coefficients.
fn are_buffers(words: &[u32], read: Read, buffers: &Description<'_>) -> bool {
    let first = read.splines as usize;
    let second = 3 * first;
    let third = second + 2 * read.points as usize;
    words.len() == third + 128 * first
        && stored::begin_u32(buffers.counts, &words[0..first])
        && stored::begin_f32(buffers.starts, &words[first..second])
        && begin_i32(buffers.deltas, &words[second..third])
        && begin_i32(buffers.coefficients, &words[third..])
}

// Whether words are the description: splines, points, adjustment, then what the buffers begin with.
fn is_description(words: &[u32], read: Read, buffers: &Description<'_>) -> bool {
    let [splines, points, adjustment, rest @ ..] = words else {
        return false;
    };
    *splines == read.splines
        && *points == read.points
        && stored::signed_word(*adjustment) == read.adjustment
        && are_buffers(rest, read, buffers)
}

// Whether the output is this refusal.
fn is_refusal(output: &[u32], refusal: Refusal) -> bool {
    let (code, place) = refusal;
    let &[number, at] = output else {
        return false;
    };
    number == u32::from(code) && at as usize == place
}

// Whether the output is a success: code and place 0, then the description.
fn is_success(output: &[u32], read: Read, buffers: &Description<'_>) -> bool {
    let [0, 0, description @ ..] = output else {
        return false;
    };
    is_description(description, read, buffers)
}

// Whether what the port reads is the output.
fn read_agrees(list: &[u32], configured: u32, pixels: u32, output: &[u32]) -> bool {
    let mut counts = [0u32; SPLINES];
    let mut starts = [0.0f32; STARTS];
    let mut deltas = [0i32; DELTAS];
    let mut coefficients = [0i32; COEFFICIENTS];
    match reader::read(
        list,
        configured,
        pixels,
        &mut counts,
        &mut starts,
        &mut deltas,
        &mut coefficients,
    ) {
        Err(refusal) => is_refusal(output, refusal),
        Ok(read) => is_success(
            output,
            read,
            &Description {
                counts: &counts,
                starts: &starts,
                deltas: &deltas,
                coefficients: &coefficients,
            },
        ),
    }
}

// Whether the port writes a description as the list.
fn is_written(
    description: &Description<'_>,
    adjustment: i32,
    configured: u32,
    pixels: u32,
    list: &[u32],
) -> bool {
    let mut written = [0u32; VALUES];
    match writer::write(description, adjustment, configured, pixels, &mut written) {
        Err(_) => false,
        Ok(values) => values == list.len() && stored::begin_u32(&written, list),
    }
}

// The first cells of the buffers, as the description of what was read.
fn first_of<'a>(buffers: &Description<'a>, read: Read) -> Option<Description<'a>> {
    let s = read.splines as usize;
    let n = read.points as usize;
    Some(Description {
        counts: buffers.counts.get(..s)?,
        starts: buffers.starts.get(..2 * s)?,
        deltas: buffers.deltas.get(..2 * n)?,
        coefficients: buffers.coefficients.get(..128 * s)?,
    })
}

// Whether the port writes a stored description as the list. The description is had by reading the list, and held against the stored one.
fn write_agrees(stored: &[u32], configured: u32, pixels: u32, list: &[u32]) -> bool {
    let mut counts = [0u32; SPLINES];
    let mut starts = [0.0f32; STARTS];
    let mut deltas = [0i32; DELTAS];
    let mut coefficients = [0i32; COEFFICIENTS];
    let Ok(read) = reader::read(
        list,
        configured,
        pixels,
        &mut counts,
        &mut starts,
        &mut deltas,
        &mut coefficients,
    ) else {
        return false;
    };
    let buffers = Description {
        counts: &counts,
        starts: &starts,
        deltas: &deltas,
        coefficients: &coefficients,
    };
    if !is_description(stored, read, &buffers) {
        return false;
    }
    match first_of(&buffers, read) {
        None => false,
        Some(description) => is_written(&description, read.adjustment, configured, pixels, list),
    }
}

// Kind 14 is reading, 15 writing; the input begins with the configured limit and the pixels.
pub fn agrees(kind: u32, input: &[u32], output: &[u32]) -> bool {
    let [configured, pixels, rest @ ..] = input else {
        return false;
    };
    if kind == 14 {
        read_agrees(rest, *configured, *pixels, output)
    } else {
        write_agrees(rest, *configured, *pixels, output)
    }
}
