// A number for each rule, its key, which it shares with its inverse alone.
#![tactic(auto)]

ghost use Rattle.std.specs.Prelude.{cond, ◌≡◌, ◌≤◌, leb, length};
ghost use Rattle.roles.specs.Role.{inv_chain};
ghost use Rattle.rule_keys.specs.Key.{code as code_of_lem, key as key_of};

use role_bytes::{inverse, is_inverse, name};

// The key of a rule; 0 where its left side has over 8 roles.
pub fn key(left: &[u8], right: u8) -> u64
    ensures { result ≡ cond (leb (length left.entry.now) 8) (key_of (record { left = left.entry.now; right = right })) 0 }
{
    if 8 < left.len() {
        return 0;
    }
    if is_inverse(right) {
        64 * inverse_code(left) + name(right) as u64
    } else {
        64 * plain_code(left) + name(right) as u64
    }
}

// The code of a chain, from its last role to its first.
fn plain_code(chain: &[u8]) -> u64
    requires { length chain.now ≤ 8 }
    ensures { result ≡ code_of_lem chain.now }
{
    let mut code = 1;
    for i in (0..chain.len()).rev() {
        code = 128 * code + chain[i] as u64;
    }
    code
}

// The code of a chain's inverse, from the chain's first role to its last.
fn inverse_code(chain: &[u8]) -> u64
    requires { length chain.now ≤ 8 }
    ensures { result ≡ code_of_lem (inv_chain chain.now) }
{
    let mut code = 1;
    for role in chain {
        code = 128 * code + inverse(*role) as u64;
    }
    code
}
