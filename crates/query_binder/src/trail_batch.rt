// Many questions put to the same tables, which are checked and indexed once. The questions follow one another as on the program's input: role byte,
// number of links (16 bits, low byte first), links.
ghost use Rattle.std.specs.Prelude.{◌≡◌, ◌+◌, ◌*◌, ◌<◌, ◌≤◌, drop, replicate};
ghost use Rattle.query_answerer.specs.Batch.{Batches};
ghost use Rattle.query_causes.specs.ManyQueries.{names_in, whole_size};
ghost use Rattle.query_binder.specs.PairSets.{Unused};
ghost use Rattle.query_binder.specs.TrailBatch.{Held, Tabled, AnsweredAt};
ghost use Rattle.query_correctness.specs.TrailQuery.{AnsweredByTrails};

use crate::pairs::renew;
use crate::reaching::binds;
use crate::small_tables::is_small;
use crate::trail_index::fill;
use byte_parts::byte;
use query_answerer::Batch;
use query_checker::{check_named, names_in};
use query_parts::{answer_byte, head, links, whole};

// Answers the whole questions at the front of the input, with a byte each, as many as there is room for: 0 for no, 1 for yes, else the number of the
// cause, 12 to 15, that refuses the question. Bytes after the answers keep their values. Small tables are read in small arrays, which take less
// time to clear.
pub fn bind_all(heads: &[u16], moves: &[u16], input: &[u8], answers: &mut [u8]) -> Batch
    ensures { Batches (AnsweredByTrails heads.now moves.now) input.now answers.old answers.new result }
{
    if is_small(heads, moves) {
        bind_in::<64, 320, 4096>(heads, moves, input, answers)
    } else {
        bind_in::<2048, 9216, 131072>(heads, moves, input, answers)
    }
}

// The same in fresh arrays for tables with so many states: an index of them and of their transitions, and a set of pairs.
fn bind_in<const ROOM: usize, const INDEX: usize, const PAIRS: usize>(
    heads: &[u16],
    moves: &[u16],
    input: &[u8],
    answers: &mut [u8],
) -> Batch
    requires held { (names_in heads.now moves.now ≡ 0 → ⊥) → Held ROOM heads.now moves.now (replicate INDEX 0) 0 }
    requires sizes { (ROOM ≤ 2048) × (INDEX ≤ 9216) × (PAIRS ≡ 64 * ROOM) }
    ensures { Batches (AnsweredByTrails heads.now moves.now) input.now answers.old answers.new result }
{
    let mut index = [0u16; INDEX];
    let mut pairs = [0u16; PAIRS];
    let names = prepare(heads, moves, ROOM, &mut index);
    answer_each(
        heads, moves, ROOM, &index, names, input, answers, &mut pairs,
    )
}

// How many names the tables have, or 0 where they do not fit; those that fit are entered into an index that has no transition.
fn prepare(heads: &[u16], moves: &[u16], room: usize, index: &mut [u16]) -> u8
    requires { (names_in heads.now moves.now ≡ 0 → ⊥) → Held room heads.now moves.now index.old 0 }
    ensures { Tabled room heads.now moves.now result index.new }
{
    let Some(names) = names_in(heads, moves) else {
        return 0;
    };
    fill(moves, room, index);
    names
}

// Answers whole questions by tables with so many names, or 0 where they do not fit. No stamp is used twice before the stamps are cleared.
fn answer_each(
    heads: &[u16],
    moves: &[u16],
    room: usize,
    index: &[u16],
    names: u8,
    input: &[u8],
    answers: &mut [u8],
    pairs: &mut [u16],
) -> Batch
    requires tabled { Tabled room heads.now moves.now names index.now }
    requires unused { Unused room 1 pairs.old }
    ensures { Batches (AnsweredByTrails heads.now moves.now) input.now answers.old answers.new result }
{
    let mut stamp = 1;
    let mut read = 0;
    for (answered, byte) in answers.iter_mut().enumerate() {
        let Some(size) = whole(input, read) else {
            return Batch { answered, read };
        };
        let newest = renew(pairs, room, stamp);
        *byte = answer(
            heads, moves, room, index, names, input, read, size, newest, pairs,
        );
        stamp = newest + 1;
        read += size;
    }
    Batch {
        answered: answers.len(),
        read,
    }
}

// Answers one question, so many bytes from a place of the input on, with a byte.
fn answer(
    heads: &[u16],
    moves: &[u16],
    room: usize,
    index: &[u16],
    names: u8,
    input: &[u8],
    read: usize,
    size: usize,
    stamp: u16,
    pairs: &mut [u16],
) -> u8
    requires tabled { Tabled room heads.now moves.now names index.now }
    requires size_value { (size ≡ whole_size (drop read input.now)) × (0 < size) }
    requires unused { Unused room stamp pairs.old }
    ensures answered_at { AnsweredAt heads.now moves.now (drop read input.now) result }
    ensures unused_2 { Unused room (stamp + 1) pairs.new }
{
    let role = byte(input, read);
    let chain = links(input, read, size);
    if let Err(refusal) = check_named(names, role, chain) {
        return answer_byte(Err(refusal));
    }
    if 16 < chain.len() {
        return 15;
    }
    answer_byte(Ok(binds(
        moves,
        room,
        index,
        role,
        chain,
        head(heads, role),
        stamp,
        pairs,
    )))
}
