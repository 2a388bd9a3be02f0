// The marks of the sliding kind.
ghost use Rattle.sliding.specs.Form.{OnGrid};

// A mark of the sliding kind in whole units of 1/16,777,216.
#[derive(Clone, Copy, PartialEq, Eq, Debug)]
pub struct Sliding {
    pub units: i64,
    ghost on_grid: { OnGrid units },
}
