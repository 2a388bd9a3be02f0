// What the windows of a formula have in common: the records of its constants are made once, and then stand.
ghost use Rattle.std.specs.Prelude.{◌≡◌, ◌≤◌, [], Ok, true, ℤ, length};
ghost use Rattle.boxes.specs.Stored.{box_of};
ghost use Rattle.crossing.specs.Standing.{Standing};
ghost use Rattle.line.specs.declared.line.Line.TheVariants.{Constant};
ghost use Rattle.sheet.specs.Moving.{remade};
ghost use Rattle.sheet.specs.Reading.{overlaid};

use boxes::ChannelBox;
use fault::Fault;
use kind::NumberKind;
use line::Line;
use rule::record_line;
use slope::Record;

#[inline(always)]
fn is_constant(line: Line) -> bool
    ensures yes { result ≡ true → (k : ℤ) × (line ≡ Constant k) }
    ensures no { (k : ℤ) → line ≡ Constant k → result ≡ true }
{
    matches!(line, Line::Constant(_))
}

// Makes the records of the constants, each in its place.
pub(crate) fn constants<K: NumberKind>(
    lines: &[Line],
    working: &mut [Record<K>],
) -> Result<(), Fault>
    requires { length lines.now ≤ length working.old }
    ensures { (u : Unit {0}) → result ≡ Ok u → Standing K.NumberKind.model lines.now working.new }
{
    let any = ChannelBox::blank();
    for n in 0..lines.len() {
        let line = lines[n];
        if is_constant(line) {
            record_line(&any, working, n, line)?;
        }
    }
    Ok(())
}

// Whether a line's record stands, where those of constants do.
#[inline(always)]
fn stands(standing: bool, line: Line) -> bool
    ensures yes { result ≡ true → (standing ≡ true) × ((k : ℤ) × (line ≡ Constant k)) }
    ensures no { standing ≡ true → (k : ℤ) → line ≡ Constant k → result ≡ true }
{
    standing && is_constant(line)
}

// Makes the records of the lines over a box, but those that stand.
#[inline(always)]
pub(crate) fn records_over<K: NumberKind>(
    lines: &[Line],
    standing: bool,
    over: &ChannelBox,
    working: &mut [Record<K>],
) -> Result<(), Fault>
    requires room { length lines.now ≤ length working.old }
    requires standing { standing ≡ true → Standing K.NumberKind.model lines.now working.old }
    ensures answer { result ≡ (remade K.NumberKind.model (box_of over.now) lines.now [] []).answer }
    ensures records { working.new ≡ overlaid (remade K.NumberKind.model (box_of over.now) lines.now [] []).records working.old }
    ensures standing { standing ≡ true → Standing K.NumberKind.model lines.now working.new }
{
    for n in 0..lines.len() {
        let line = lines[n];
        if !stands(standing, line) {
            record_line(over, working, n, line)?;
        }
    }
    Ok(())
}
