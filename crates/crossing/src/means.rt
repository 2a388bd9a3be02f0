// Memory and what it means, one by one and in slices.
ghost use Rattle.std.specs.Prelude.{◌≡◌, length, map};

// Plain data with a meaning. Different data may mean the same, and all that can be meant can be written.
pub trait Means<T: Copy>: Copy {
    ghost means: { Self → T };

    fn meaning(self) -> T
        ensures { result ≡ means self };

    fn form(meant: T) -> Self
        ensures { means result ≡ meant };
}

pub(crate) fn read_all<T: Copy, C: Means<T>>(to: &mut [T], memory: &[C])
    requires { length to.old ≡ length memory.now }
    ensures { to.new ≡ map C.Means.means memory.now }
{
    for i in 0..memory.len() {
        to[i] = memory[i].meaning();
    }
}
