// Lays the fragments of roles depth first: numbers for their states, and their transitions in the order of document 01.
ghost use Rattle.std.specs.Prelude.{List, ◌≡◌, ℕ, ◌<◌, ◌≤◌, length, set};
ghost use Rattle.roles.specs.Role.{name as name_of};
ghost use Rattle.roles.specs.Rule.{Rule};
ghost use Rattle.tables.specs.Tables.{own_shapes};
ghost use Rattle.rule_index.specs.RuleIndex.{Indexed, kind_in, size_in, first_in};
ghost use Rattle.rule_index.specs.RuleIndexLaws.{Here};
ghost use Rattle.rule_index.specs.RuleKinds.{has};
ghost use Rattle.table_builder.specs.Lay.{Ready, FragmentLaid, RowsLaid, RowLaid, Enough, Counted, Rooted};
ghost use Rattle.table_builder.specs.Row.{count_by, Inner, InnerRole, Found};

use crate::memo::{again, keep, number};
use role_bytes::{inverse, name};
use rule_index::mirror_of;
use table_writer::{Place, add, letters};

// The row that a rule adds to a fragment: the states that it leads from and to; where the inner roles stand in the index, how many there are,
// and whether they are taken inverted, from the last to the first. No inner role says that there is no row.
#[derive(Clone, Copy)]
pub struct InnerRow {
    pub from: usize,
    pub to: usize,
    pub start: usize,
    pub size: usize,
    pub mirrored: bool,
}

// The roots of all names, in name order, and where each stands. Transitions are counted also where there is no room for them.
pub(crate) fn roots(index: &[u16], names: usize, heads: &mut [u16], moves: &mut [u16]) -> Place
    requires { (0 < names → ((ρs : List Rule) × Indexed ρs index.now)) × (names ≤ 64) }
    ensures { Rooted index.now names result heads.old heads.new moves.old moves.new }
{
    let mut memo = [0u16; 512];
    let mut place = Place { state: 0, count: 0 };
    for x in 0..names {
        put(heads, x, place.state as u16);
        place = fragment(index, (2 * x) as u8, place, &mut memo, moves);
    }
    place
}

// The place after the roots of all names, laid where there is no room for them.
pub(crate) fn count(index: &[u16], names: usize) -> Place
    requires { (0 < names → ((ρs : List Rule) × Indexed ρs index.now)) × (names ≤ 64) }
    ensures { (ρs : List Rule) → Indexed ρs index.now → (fuel : ℕ) → Enough index.now names fuel
        → Counted ρs fuel names result }
{
    let mut no_heads = [0u16; 1];
    let mut no_moves = [0u16; 1];
    roots(index, names, &mut no_heads, &mut no_moves)
}

// A fragment of a role: two states, letters, the transition back, the rows of the role's rules and, if it is symmetric, of its inverse's.
// It is laid so the first time, and again from the memo afterwards.
#[cycle(fragment_row_rows)]
fn fragment(index: &[u16], role: u8, place: Place, memo: &mut [u16], moves: &mut [u16]) -> Place
    requires { Ready index.now role place memo.old moves.old }
    ensures { FragmentLaid index.now role place moves.old result memo.new moves.new }
{
    let initial = place.state;
    if 2046 < initial {
        return Place {
            state: 2049,
            count: place.count,
        };
    }
    let r = role as usize;
    if 0 < memo[r] {
        return again(r, place, memo, moves);
    }
    let symmetric = has_kind(index, role, 1);
    let transitive = has_kind(index, role, 0);
    let lettered = letters(place, role, symmetric, transitive, moves);
    let first = first_of(index, role);
    let own = rows(index, first, role, initial, lettered, memo, moves);
    let mirror = mirror_of(first, symmetric);
    let all = rows(index, mirror, inverse(role), initial, own, memo, moves);
    keep(r, place, all, memo);
    all
}

// The rows of a rule and of the rules of the same name after it, in book order, for the fragment of a role at an initial state.
#[cycle(fragment_row_rows)]
fn rows(
    index: &[u16],
    first: usize,
    role: u8,
    initial: usize,
    place: Place,
    memo: &mut [u16],
    moves: &mut [u16],
) -> Place
    requires ready { Ready index.now role place memo.old moves.old }
    requires here { Here index.now role first × (initial ≤ 2046) }
    ensures { RowsLaid first initial index.now role place moves.old result memo.new moves.new }
{
    let mut at = place;
    let mut k = first;
    while k < 256 {
        at = row(index, k, role, initial, at, memo, moves);
        k = number(index, 14 * k + 5);
    }
    at
}

// The row of rule k, if it has one: into each inner fragment's initial state, and out of the last one's final state.
#[cycle(fragment_row_rows)]
fn row(
    index: &[u16],
    k: usize,
    role: u8,
    initial: usize,
    place: Place,
    memo: &mut [u16],
    moves: &mut [u16],
) -> Place
    requires ready { Ready index.now role place memo.old moves.old }
    requires here { Here index.now role k × (initial ≤ 2046) × (k < 256) }
    ensures { RowLaid k initial index.now role place moves.old result memo.new moves.new }
{
    let row = row_of(index, k, role, initial);
    if row.size == 0 {
        return place;
    }
    let mut at = place;
    let mut reached = row.from;
    for j in 0..row.size {
        let state = at.state;
        at = add(at, true, reached, 128, state, moves);
        at = fragment(index, inner_role(index, row, j), at, memo, moves);
        reached = state + 1;
    }
    add(at, true, reached, 128, row.to, moves)
}

// The row of rule k for a fragment of a role: as it stands, or its mirror where its right role is the inverse of the role.
fn row_of(index: &[u16], k: usize, role: u8, initial: usize) -> InnerRow
    requires { ((ρs : List Rule) × Indexed ρs index.now) × Here index.now role k × (k < 256) × (initial ≤ 2046) }
    ensures { Found index.now k role initial result }
{
    let at = 14 * k;
    let from = number(index, at + 2);
    let to = number(index, at + 3);
    let size = inner_count(index, k);
    if number(index, at) == role as usize {
        InnerRow {
            from: initial + from,
            to: initial + to,
            start: at + 6,
            size,
            mirrored: false,
        }
    } else {
        InnerRow {
            from: initial + 1 - to,
            to: initial + 1 - from,
            start: at + 6,
            size,
            mirrored: true,
        }
    }
}

// How many inner roles the row of rule k has, and none where the rule has no row.
fn inner_count(index: &[u16], k: usize) -> usize
    requires { (k < 256) × (length index.now ≡ 3904) }
    ensures { result ≡ count_by (kind_in index.now k) (size_in index.now k) }
{
    if number(index, 14 * k + 1) < 2 {
        0
    } else {
        number(index, 14 * k + 4)
    }
}

// Inner role j of a row: of the roles as they stand, or of their inverses from the end.
fn inner_role(index: &[u16], row: InnerRow, j: usize) -> u8
    requires { (j < row.size) × ((level : ℕ) × Inner index.now row level) }
    ensures { InnerRole index.now row j result }
{
    let start = row.start;
    if row.mirrored {
        inverse(number(index, start + (row.size - 1 - j)) as u8)
    } else {
        number(index, start + j) as u8
    }
}

// The first rule of a role's name.
fn first_of(index: &[u16], role: u8) -> usize
    requires { (role < 128) × (length index.now ≡ 3904) }
    ensures { result ≡ first_in index.now (name_of role) }
{
    number(index, 3584 + name(role) as usize)
}

// Whether the rules of a role's name have form 4, kind 0, or form 5, kind 1.
fn has_kind(index: &[u16], role: u8, kind: usize) -> bool
    requires { ((ρs : List Rule) × Indexed ρs index.now) × (role < 128) × (kind ≤ 1) }
    ensures { (ρs : List Rule) → Indexed ρs index.now → result ≡ has kind (own_shapes ρs role) }
{
    number(index, 3712 + (64 * kind + name(role) as usize)) == 1
}

// Writes one number where there is room for it.
fn put(table: &mut [u16], at: usize, number: u16)
    ensures { table.new ≡ set table.old at number }
{
    if at < table.len() {
        table[at] = number;
    }
}
