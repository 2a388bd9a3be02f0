// A line of a formula over a box.
ghost use Rattle.std.specs.Prelude.{◌≡◌, ◌-◌, ◌+ℤ◌, Some, length, pos, true, ℤ};
ghost use Rattle.std.specs.Int.{int_div_euclid};
ghost use Rattle.std.specs.List.{slice_get};
ghost use Rattle.boxes.specs.Boxes.{is_count};
ghost use Rattle.sheet.specs.Contents.{contents};
ghost use Rattle.window.specs.Windows.{Leaves, given, swept_about};
ghost use Rattle.window.specs.Windows as windows;

use crate::calls::{open, read, report_of};
use crate::refused::Refused;
use kind::NumberKind;
use report::Report;
use runs::Opening;
use sheet::Sheet;
use slope::Record;

// Opens a box and reads a formula onto it.
fn formed<K: NumberKind>(
    sheet: &mut Sheet,
    working: &mut [Record<K>],
    over: Opening<'_>,
    formula: &[u8],
) -> Result<(), Refused>
    ensures answer { result ≡ windows.formed K.NumberKind.model (given over.entry) (length working.old) formula.now }
    ensures leaves { Leaves K.NumberKind.model (given over.entry) formula.now (contents sheet.old) working.old (contents sheet.new) working.new }
{
    open(sheet, working, over)?;
    read(sheet, working, formula)
}

// Opens a box, reads a formula onto it and reports a line of it. What the sheet and the working lines held before has no part in the
// answer; refused or not, they are afterwards as these calls leave them.
pub fn line_over<K: NumberKind>(
    sheet: &mut Sheet,
    working: &mut [Record<K>],
    over: Opening<'_>,
    formula: &[u8],
    line: usize,
) -> Result<Report, Refused>
    ensures answer { result ≡ windows.line_over K.NumberKind.model (given over.entry) (length working.old) formula.now line }
    ensures leaves { Leaves K.NumberKind.model (given over.entry) formula.now (contents sheet.old) working.old (contents sheet.new) working.new }
{
    formed(sheet, working, over, formula)?;
    report_of(sheet, working, line)
}

// Half of a number, rounded down, also where it is negative.
fn half(n: i64) -> i64
    ensures { result ≡ int_div_euclid n (pos 2) }
{
    n.div_euclid(2)
}

// The midpoint of channel 0, rounded down. Ends that are no counts, or no channel at all, are refused before it is read.
fn midpoint(lower: &[i64], upper: &[i64]) -> i64
    ensures { (l u : ℤ) → slice_get lower.now 0 ≡ Some l → slice_get upper.now 0 ≡ Some u → is_count l ≡ true → is_count u ≡ true → result ≡ int_div_euclid (l +ℤ u) (pos 2) }
{
    let (Some(l), Some(u)) = (lower.first(), upper.first()) else {
        return 0;
    };
    half(l.saturating_add(*u))
}

// The box of these ends, with channel 0 swept about its midpoint.
fn swept<'a>(lower: &'a [i64], upper: &'a [i64]) -> Opening<'a>
    ensures { given result ≡ swept_about lower.now upper.now }
{
    Opening {
        lower,
        upper,
        swept: 0,
        centre: midpoint(lower, upper),
    }
}

// The last line, or line 0 where there is none.
fn last(sheet: &Sheet) -> usize
    ensures { result ≡ length (contents sheet.now).lines - 1 }
{
    sheet.held().saturating_sub(1)
}

// The same for the last line of the formula, over the box of these ends with channel 0 swept about its midpoint, rounded down.
pub fn last_over<K: NumberKind>(
    sheet: &mut Sheet,
    working: &mut [Record<K>],
    lower: &[i64],
    upper: &[i64],
    formula: &[u8],
) -> Result<Report, Refused>
    ensures answer { result ≡ windows.last_over K.NumberKind.model lower.now upper.now (length working.old) formula.now }
    ensures leaves { Leaves K.NumberKind.model (swept_about lower.now upper.now) formula.now (contents sheet.old) working.old (contents sheet.new) working.new }
{
    let over = swept(lower, upper);
    formed(sheet, working, over, formula)?;
    let line = last(sheet);
    report_of(sheet, working, line)
}
