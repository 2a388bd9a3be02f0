// Why a call is refused, and where.

#[derive(Clone, Copy, PartialEq, Eq, Debug)]
pub enum Cause {
    // not 1 to 8 channels, or lists of unequal length
    Channels,
    // no such channel
    NoChannel,
    // a number beyond the counts
    Number,
    // a lower end above its upper end
    Order,
    // a centre outside its range
    Centre,
    // fewer than 64 lines lent
    Lines,
    // 64 lines are held
    Full,
    // an operand that is no earlier line
    Operand,
    // the divisor's span over the box holds 0
    Divisor,
    // the result has no span over the box
    Absent,
    // no such line
    NoLine,
    // read onto held lines
    NotEmpty,
    // the bytes end too early
    Early,
    // a number that is not in its shortest form, or too large
    Form,
    // an operation above 10
    Operation,
    // not 1 to 64 lines
    Count,
    // bytes left over
    Left,
    // too few bytes to write to
    Room,
}

#[derive(Clone, Copy, PartialEq, Eq, Debug)]
pub struct Fault {
    pub cause: Cause,
    pub place: usize,
}
