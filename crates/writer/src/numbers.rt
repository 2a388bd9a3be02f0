// Writing a number.
ghost use Rattle.std.specs.Prelude.{◌≡◌, ◌+◌, ◌≤◌, length};
ghost use Rattle.std.specs.Iterator.{YieldsFirst, item_count};
ghost use Rattle.writer.specs.Writing.{held_bytes};

// The bytes that are left of a number, low group first.
#[derive(Drop)]
pub struct Groups {
    pub rest: Option<u64>,
}

impl Iterator for Groups {
    type Item = u8;

    ghost next_gives = { YieldsFirst (λ s. held_bytes s.rest) };

    ghost remaining = { item_count (λ s. held_bytes s.rest) };

    fn next(&mut self) -> Option<u8> {
        let n = self.rest?;
        if n < 128 {
            self.rest = None;
            return Some(n as u8);
        }
        self.rest = Some(n / 128);
        Some((n % 128 + 128) as u8)
    }
}

// How many bytes a number takes, if it is there.
pub fn width(n: Option<u64>) -> usize
    ensures value { result ≡ length (held_bytes n) }
    ensures bound { result ≤ 10 }
{
    Groups { rest: n }.count()
}
