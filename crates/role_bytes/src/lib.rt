// Role bytes: twice the name, with bit 0 set for the inverse.
#![tactic(auto)]

ghost use Rattle.std.specs.Prelude.{◌≡◌, eqb};
ghost use Rattle.roles.specs.Role.{inv, polarity};
ghost use Rattle.roles.specs.Role.{name as name_of};

// The name of a role.
pub fn name(role: u8) -> u8
    ensures { result ≡ name_of role }
{
    role >> 1
}

// Whether a role is the inverse of its name.
pub fn is_inverse(role: u8) -> bool
    ensures { result ≡ eqb (polarity role) 1 }
{
    role & 1 == 1
}

// The inverse of a role: the same name with bit 0 flipped.
pub fn inverse(role: u8) -> u8
    ensures { result ≡ inv role }
{
    role ^ 1
}
