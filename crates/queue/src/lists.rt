// Lists of numbers, for all crates from here on.
ghost use Rattle.std.specs.Prelude.{◌≤◌, length};
ghost use Rattle.queue.specs.Lists.{Filled};

// Entries from `from` up to `end` become x.
pub fn fill(list: &mut [u32], from: usize, end: usize, x: u32)
    requires { (from ≤ end) × (end ≤ length list.old) }
    ensures { Filled from end x list.old list.new }
{
    list[from..end].fill(x);
}
