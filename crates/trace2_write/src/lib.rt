// Writes the trace file of a description in either version into lent bytes, with zeros behind, or says what can't be written and where.
// Version 1 with edition 1 is left to `trace_write`; the steps here are those of a header of nine numbers, the ninth of which is the edition.
#![tactic(auto)]

ghost use Rattle.std.specs.Prelude.{◌≡◌, Bool, ◌<◌, length};
ghost use Rattle.shape.specs.Description.{description_in};
ghost use Rattle.writer.specs.Write.{first_fault, leaves};
ghost use Rattle.trace2.specs.Editions.{header_long};
ghost use Rattle.trace2.specs.Write.{barred};
ghost use Rattle.trace2_write.specs.Steps.{plain, file_checks_in, write_file_in};

use codes::{Code, Refusal};
use shape::{Description, is_shaped};
use trace_fit::judge;
use trace_write::{trace_write, write_judged};
use trace2::unknown;

// ---- the checks

// Whether a version has no such edition: one that is unknown, or edition 2 in version 1.
fn barred(version: u32, edition: u32) -> bool
    ensures { result ≡ barred version edition }
{
    unknown(edition) || (version == 1 && edition == 2)
}

// How many numbers the header of a version has.
fn header_long(version: u32) -> usize
    ensures { (result ≡ header_long version) × (result < 16) }
{
    if version == 2 { 9 } else { 8 }
}

// The first fault of a description, a version and an edition, but for the room. The lengths are looked at before the edition, and `judge` begins with them.
fn judge_file(description: &Description<'_>, version: u32, edition: u32) -> Result<(), Refusal>
    ensures { result ≡ first_fault (file_checks_in version edition (description_in description.now)) }
{
    if !is_shaped(description) {
        return Err((Code::Shape, 0));
    }
    if barred(version, edition) {
        return Err((Code::Edition, 32));
    }
    if unknown(version) {
        return Err((Code::Header, 0));
    }
    judge(description, header_long(version))
}

// ---- the file

// All but version 1 with edition 1: what is not refused is of version 2, whose header has the edition as its ninth number.
fn write_second(
    description: &Description<'_>,
    adjustment: i32,
    version: u32,
    edition: u32,
    bytes: &mut [u8],
) -> Result<usize, Refusal>
    requires { plain version edition ≡ Bool.false }
    ensures { leaves result bytes.new
        ≡ write_file_in (description_in description.now) adjustment version edition (length bytes.old) }
{
    let found = judge_file(description, version, edition);
    write_judged(description, adjustment, 2, &[edition], found, bytes)
}

// Whether it is version 1 with edition 1.
fn is_plain(version: u32, edition: u32) -> bool
    ensures { result ≡ plain version edition }
{
    version == 1 && edition == 1
}

pub fn trace_write2(
    description: &Description<'_>,
    adjustment: i32,
    version: u32,
    edition: u32,
    bytes: &mut [u8],
) -> Result<usize, Refusal>
    ensures { leaves result bytes.new
        ≡ write_file_in (description_in description.now) adjustment version edition (length bytes.old) }
{
    if is_plain(version, edition) {
        trace_write(description, adjustment, bytes)
    } else {
        write_second(description, adjustment, version, edition, bytes)
    }
}
