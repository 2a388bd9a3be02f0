// Lines in memory.
ghost use Rattle.std.specs.Prelude.{◌≡◌, pos};
ghost use Rattle.crossing.specs.Lines.{line_of};

use crate::means::Means;
use crate::memory::CLine;
use line::Line;

// A line of operands alone.
fn operands(operation: u32, a: usize, b: usize, c: usize) -> CLine
    ensures { result ≡ record { operation = operation; constant = pos 0; a = a; b = b; c = c } }
{
    CLine {
        operation,
        constant: 0,
        a,
        b,
        c,
    }
}

impl Means<Line> for CLine {
    ghost means = { line_of };

    // Operations above 10 count as branches here.
    fn meaning(self) -> Line {
        let CLine {
            operation,
            constant,
            a,
            b,
            c,
        } = self;
        match operation {
            0 => Line::Channel(a),
            1 => Line::Constant(constant),
            2 => Line::Sum(a, b),
            3 => Line::Difference(a, b),
            4 => Line::Product(a, b),
            5 => Line::Quotient(a, b),
            6 => Line::Square(a),
            7 => Line::Magnitude(a),
            8 => Line::Greater(a, b),
            9 => Line::Lesser(a, b),
            _ => Line::Branch(a, b, c),
        }
    }

    fn form(line: Line) -> CLine {
        match line {
            Line::Channel(a) => operands(0, a, 0, 0),
            Line::Constant(n) => CLine {
                operation: 1,
                constant: n,
                a: 0,
                b: 0,
                c: 0,
            },
            Line::Sum(a, b) => operands(2, a, b, 0),
            Line::Difference(a, b) => operands(3, a, b, 0),
            Line::Product(a, b) => operands(4, a, b, 0),
            Line::Quotient(a, b) => operands(5, a, b, 0),
            Line::Square(a) => operands(6, a, 0, 0),
            Line::Magnitude(a) => operands(7, a, 0, 0),
            Line::Greater(a, b) => operands(8, a, b, 0),
            Line::Lesser(a, b) => operands(9, a, b, 0),
            Line::Branch(a, b, c) => operands(10, a, b, c),
        }
    }
}
