// `gauge svg out`: a whole drawing in an open file, a polyline a trace.
#![tactic(auto)]

ghost use Rattle.std.specs.Prelude.{◌≡◌};
ghost use Rattle.drawing.specs.Thickness.{mean_sigma, hundredths_of};

use dequantize::coefficients::inv_adjusted_quant;
use shape::Description;
use std::fs::File;
use std::io::{Error, Stdout, Write};
use words::{Failure, out, tell};

// The text of a spline that has all the points that this program has room for: a pair takes 17 bytes at most, and one parts it from the next.
const TEXT: usize = 18874386;

// How a command fails that could not write the drawing.
fn no_drawing(why: Error) -> Failure {
    words::fail(Failure::Refused, b"the drawing", why)
}

// The mean of sigma along a trace, by its first sigma coefficient.
fn mean_sigma(sigma: i32, adjustment: i32) -> f32
    ensures { result ≡ mean_sigma sigma adjustment }
{
    let quant = inv_adjusted_quant(adjustment);
    std::num::nearest_i32_to_f32(sigma) * 0.3333 * quant
}

// How thick a line is, in hundredths of a pixel: twice the mean of sigma along its trace.
fn thickness(mean: f32) -> u64
    ensures { result ≡ hundredths_of mean }
{
    let width = numbers::abs(mean);
    kinds::saturating_f32_to_u64(wholes::round(200.0 * width))
}

// The first sigma coefficient of a spline; 0 where there is none.
fn sigma_of(coefficients: &[i32], k: usize) -> i32 {
    if coefficients.len() / 128 <= k {
        return 0;
    }
    coefficients[128 * k + 96]
}

// Writes a polyline with this text of points.
fn line(mut file: &File, k: usize, hundredths: u64, text: &[u8]) -> std::io::Result<()> {
    let pixels = hundredths / 100;
    let rest = hundredths % 100;
    tell(
        file,
        format_args!(
            "<polyline id=\"trace-{k}\" fill=\"none\" stroke=\"black\" stroke-linejoin=\"round\" stroke-width=\"{pixels}.{rest:02}\" points=\""
        ),
    )?;
    file.write_all(text)?;
    file.write_all(b"\"/>\n")
}

// Trace k, with room for its text of points.
fn trace(
    description: &Description<'_>,
    adjustment: i32,
    k: usize,
    file: &File,
    text: &mut [u8],
) -> Result<(), Failure> {
    let sigma = sigma_of(description.coefficients, k);
    let hundredths = thickness(mean_sigma(sigma, adjustment));
    let n = polyline_write::points_write(description, k, text).map_err(
        |refusal| refusals::of_building(refusal),
    )?;
    let points = text.get(..n).ok_or(Failure::Refused)?;
    line(file, k, hundredths, points).map_err(no_drawing)
}

// Every trace.
fn traces(
    description: &Description<'_>,
    adjustment: i32,
    file: &File,
    text: &mut [u8],
) -> Result<(), Failure> {
    for (k, &points) in description.counts.iter().enumerate() {
        let room = 18 * (points as usize + 1);
        let text = text.get_mut(..room).ok_or(Failure::Refused)?;
        trace(description, adjustment, k, file, text)?;
    }
    Ok(())
}

// In this program the pixel in column x and row y has its centre at x, y; in a drawing a pixel begins there. So the drawing begins half a pixel before.
fn begin(file: &File, width: u32, height: u32) -> std::io::Result<()> {
    tell(file, "<?xml version=\"1.0\" encoding=\"UTF-8\"?>\n")?;
    tell(
        file,
        format_args!(
            "<svg xmlns=\"http://www.w3.org/2000/svg\" width=\"{width}\" height=\"{height}\" viewBox=\"-0.5 -0.5 {width} {height}\">\n"
        ),
    )
}

// The drawing of a description in an image of this size, each text of points in a room first. The room is lent as an array: its length is then known by its type, and no proof counts its cells.
fn write_in(
    description: &Description<'_>,
    adjustment: i32,
    width: u32,
    height: u32,
    to: Stdout,
    mut file: &File,
    text: &mut [u8; TEXT],
) -> Result<(), Failure> {
    begin(file, width, height).map_err(no_drawing)?;
    traces(description, adjustment, file, text)?;
    file.write_all(b"</svg>\n").map_err(no_drawing)?;
    let n = description.counts.len();
    out(to, format_args!("{n} traces\n"))
}

// The same.
pub fn write(
    description: &Description<'_>,
    adjustment: i32,
    width: u32,
    height: u32,
    to: Stdout,
    file: &File,
) -> Result<(), Failure>
    ensures { Unit {0} }
{
    let mut text = [0u8; TEXT];
    write_in(description, adjustment, width, height, to, file, &mut text)
}
