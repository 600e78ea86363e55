// What a check finds.
ghost use Rattle.std.specs.Prelude.{◌≡◌};
ghost use Rattle.refusals.specs.Check.{check};

#[derive(Clone, Copy)]
pub enum Check {
    Passed,
    Failed,
}

// Passed where the test holds.
impl From<bool> for Check {
    ghost from_gives = { λ test found. found ≡ check test };

    fn from(test: bool) -> Check {
        if test { Check::Passed } else { Check::Failed }
    }
}
