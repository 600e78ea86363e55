// Whether the question at the front of an input is whole.
ghost use Rattle.std.specs.Prelude.{◌≡◌};
ghost use Rattle.query_causes.specs.Input.{is_whole as whole_of};

use words::word;

pub fn is_whole(input: &[u8]) -> bool
    ensures { result ≡ whole_of input.now }
{
    3 + word(input, 1) <= input.len()
}
