// A number that a cause may have: 0 is none's.
ghost use Rattle.std.specs.Prelude.{◌≤◌};

#[derive(Clone, Copy)]
pub struct Number {
    pub number: u32,
    pub ghost some: { 1 ≤ number },
}
