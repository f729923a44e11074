// What puts the values of a description that was judged into its list.
#![tactic(auto)]

ghost use Rattle.std.specs.Prelude.{◌≡◌, Bool, ◌∷◌, ◌++◌, map, ◌+◌, ◌-◌, ◌*◌, ◌≤◌, ◌<◌, ◌%◌, length, pos, nat_abs, ◌-ℤ◌};
ghost use Rattle.std.proofs.lemmas.List.Edits.{sets};
ghost use Rattle.shape.specs.Shape.{points_of};
ghost use Rattle.shape.specs.Description.{description_in};
ghost use Rattle.list.specs.List.{pack_signed, starts_list, splines_list};
ghost use Rattle.write_judge.specs.Judge.{first_fault, unfit, unfit_as, start_checks};
ghost use Rattle.write_judge.specs.Verdict.{Fine};
ghost use Rattle.write_steps.specs.Steps.{whole_of, later_list, list_values, CanBeWritten};

use list::pack_signed;
use shape::Description;

// The value of a coordinate of the first start. A cast, since std has no TryFrom of f32 for u32.
fn first_value(x: f32) -> u32
    requires { unfit_as Bool.true x ≡ Bool.false }
    ensures { result ≡ nat_abs (whole_of x) }
{
    x as u32
}

// The value of a coordinate of a later start.
fn later_value(last: f32, x: f32) -> u32
    requires { (unfit last ≡ Bool.false) × (unfit x ≡ Bool.false) }
    ensures { result ≡ pack_signed (whole_of x -ℤ whole_of last) }
{
    pack_signed((x as i32) - (last as i32))
}

// Signed numbers, from a place of the list on.
fn put_numbers(numbers: &[i32], list: &mut [u32], at: usize)
    requires { at + length numbers.now ≤ length list.old }
    ensures { list.new ≡ sets list.old at (map pack_signed numbers.now) }
{
    for (i, &number) in numbers.iter().enumerate() {
        list[at + i] = pack_signed(number);
    }
}

// The starts after the first: each is a difference to the one before it.
fn put_later_starts(starts: &[f32], list: &mut [u32])
    requires { (length starts.now % 2 ≡ 0) × (2 ≤ length starts.now) × (length starts.now < length list.old) × (first_fault (start_checks Bool.true 1 starts.now) ≡ Fine) }
    ensures { list.new ≡ sets list.old 3 (later_list starts.now 2) }
{
    for k in 1..starts.len() / 2 {
        let i = 2 * k;
        list[i + 1] = later_value(starts[i - 2], starts[i]);
        list[i + 2] = later_value(starts[i - 1], starts[i + 1]);
    }
}

// All starts, from 1 on.
fn put_starts(starts: &[f32], list: &mut [u32])
    requires { (length starts.now % 2 ≡ 0) × (2 ≤ length starts.now) × (length starts.now < length list.old) × (first_fault (start_checks Bool.true 1 starts.now) ≡ Fine) }
    ensures { list.new ≡ sets list.old 1 (starts_list Bool.true (pos 0) (pos 0) (map whole_of starts.now)) }
{
    list[1] = first_value(starts[0]);
    list[2] = first_value(starts[1]);
    put_later_starts(starts, list);
}

// A spline: its point count, its double deltas, its coefficients.
fn put_spline(n: u32, deltas: &[i32], coefficients: &[i32], list: &mut [u32], at: usize)
    requires { at + (1 + length deltas.now + length coefficients.now) ≤ length list.old }
    ensures { list.new ≡ sets list.old at (n ∷ (map pack_signed deltas.now ++ map pack_signed coefficients.now)) }
{
    let first = at + 1;
    let after = first + deltas.len();
    list[at] = n;
    put_numbers(deltas, list, first);
    put_numbers(coefficients, list, after);
}

// All splines, from a place on.
fn put_splines(description: &Description<'_>, list: &mut [u32], at: usize)
    requires { (length description.now.deltas.now ≡ 2 * points_of description.now.counts.now) × (length description.now.coefficients.now ≡ 128 * length description.now.counts.now) × (at + length description.now.deltas.now + 129 * length description.now.counts.now ≤ length list.old) }
    ensures { list.new ≡ sets list.old at (splines_list description.now.counts.now description.now.deltas.now description.now.coefficients.now) }
{
    let mut place = at;
    let mut from = 0;
    let mut row = 0;
    for &n in description.counts {
        let cells = 2 * (n as usize);
        let to = from + cells;
        let end = row + 128;
        put_spline(
            n,
            &description.deltas[from..to],
            &description.coefficients[row..end],
            list,
            place,
        );
        place += cells + 129;
        from = to;
        row = end;
    }
}

// The whole list of a description that was judged.
pub fn put_list(description: &Description<'_>, adjustment: i32, list: &mut [u32])
    requires { CanBeWritten (description_in description.now) (length list.old) }
    ensures { list.new ≡ sets list.old 0 (list_values (description_in description.now) adjustment) }
{
    let splines = description.counts.len();
    let after = description.starts.len() + 1;
    list[0] = (splines - 1) as u32;
    put_starts(description.starts, list);
    list[after] = pack_signed(adjustment);
    put_splines(description, list, after + 1);
}
