// A refusal, with document 01's number of its cause and the value beside it.
ghost use Rattle.std.specs.Prelude.{◌≡◌, ℕ};

pub trait Refusal {
    ghost cause_of: { Self → ℕ };

    ghost value_of: { Self → ℕ };

    // The number of the cause.
    fn cause(self) -> usize
        ensures { result ≡ cause_of self };

    // What is returned beside the number.
    fn value(self) -> usize
        ensures { result ≡ value_of self };
}
