// Plain data. Any numbers may stand in it, and each of them has a meaning.
ghost use Rattle.std.specs.Prelude.{◌≡◌, length};

// A mark. The fixed kind has `number` / 65,536; the sliding kind has `number` × 2^(`scale` − 24).
#[repr(C)]
#[derive(Clone, Copy)]
pub struct CMark {
    pub number: i32,
    pub scale: u32,
}

#[repr(C)]
#[derive(Clone, Copy)]
pub struct CSpan {
    pub lower: CMark,
    pub upper: CMark,
}

// A record; it has no slopes where `slopes` is 0.
#[repr(C)]
#[derive(Clone, Copy)]
pub struct CRecord {
    pub u: CSpan,
    pub u0: CSpan,
    pub a: CSpan,
    pub b: CSpan,
    pub c: CSpan,
    pub slopes: u32,
}

// A line: its operation's number, and what that operation needs of the rest.
#[repr(C)]
#[derive(Clone, Copy)]
pub struct CLine {
    pub operation: u32,
    pub constant: i64,
    pub a: usize,
    pub b: usize,
    pub c: usize,
}

// A box: the first `channels` ranges.
#[repr(C)]
#[derive(Clone, Copy)]
pub struct CBox {
    pub lower: [i64; 8],
    pub upper: [i64; 8],
    pub channels: usize,
    pub swept: usize,
    pub centre: i64,
    ghost lowers: { length lower ≡ 8 },
    ghost uppers: { length upper ≡ 8 },
}

// A sheet: the first `held` lines.
#[repr(C)]
pub struct CSheet {
    pub over: CBox,
    pub held: usize,
    pub lines: [CLine; 64],
    ghost whole: { length lines ≡ 64 },
}

// What a call answers, with 0 for what it does not.
#[repr(C)]
#[derive(Clone, Copy)]
pub struct CAnswer {
    pub refusal: u32,
    pub place: usize,
    pub number: usize,
    pub middle: i64,
    pub margin: i64,
}
