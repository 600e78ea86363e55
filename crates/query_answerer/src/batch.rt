// Many questions put to the same tables, which are checked and indexed once. The questions follow one another as on the program's input: role byte,
// number of links (16 bits, low byte first), links.
ghost use Rattle.std.specs.Prelude.{◌≡◌, ◌+◌, ◌<◌, ◌≤◌, drop, replicate};
ghost use Rattle.query_causes.specs.ManyQueries.{whole_size};
ghost use Rattle.query_causes.specs.Query.{Answered};
ghost use Rattle.query_answerer.specs.Batch.{Ready, Asked, Batches};

use crate::index::fill;
use crate::reading::run;
use crate::states::renew;
use byte_parts::byte;
use query_checker::{check_named, names_in};
use query_parts::{answer_byte, head, links, whole};

// How many questions are answered, and how many bytes of the input they take.
#[derive(Clone, Copy)]
pub struct Batch {
    pub answered: usize,
    pub read: usize,
}

// Answers the whole questions at the front of the input, with a byte each, as many as there is room for: 0 for no, 1 for yes, else the number of the
// cause, 12 to 14, that refuses the question. Bytes after the answers keep their values.
pub fn ask_all(heads: &[u16], moves: &[u16], input: &[u8], answers: &mut [u8]) -> Batch
    ensures { Batches (Answered heads.now moves.now) input.now answers.old answers.new result }
{
    let mut space = [0u16; 15360];
    let names = prepare(heads, moves, &mut space);
    answer_each(heads, moves, names, input, answers, &mut space)
}

// How many names the tables have, or 0 where they do not fit; those that fit are indexed in space that holds zeros.
fn prepare(heads: &[u16], moves: &[u16], space: &mut [u16]) -> u8
    requires { space.old ≡ replicate 15360 0 }
    ensures { Ready heads.now moves.now result 1 space.new }
{
    let Some(names) = names_in(heads, moves) else {
        return 0;
    };
    fill(moves, 2048, space);
    names
}

// Answers whole questions by tables with so many names, or 0 where they do not fit. No stamp is used twice before the stamps are cleared.
fn answer_each(
    heads: &[u16],
    moves: &[u16],
    names: u8,
    input: &[u8],
    answers: &mut [u8],
    space: &mut [u16],
) -> Batch
    requires { Ready heads.now moves.now names 1 space.old }
    ensures { Batches (Answered heads.now moves.now) input.now answers.old answers.new result }
{
    let mut stamp = 1;
    let mut read = 0;
    for (answered, byte) in answers.iter_mut().enumerate() {
        let Some(size) = whole(input, read) else {
            return Batch { answered, read };
        };
        let newest = renew(space, stamp);
        *byte = answer(heads, moves, names, input, read, size, newest, space);
        stamp = newest as usize + size;
        read += size;
    }
    Batch {
        answered: answers.len(),
        read,
    }
}

// Answers one question, so many bytes from a place of the input on, with a byte.
fn answer(
    heads: &[u16],
    moves: &[u16],
    names: u8,
    input: &[u8],
    read: usize,
    size: usize,
    stamp: u16,
    space: &mut [u16],
) -> u8
    requires ready { Ready heads.now moves.now names stamp space.old }
    requires stamp_bound { stamp ≤ 64000 }
    requires size_value { (size ≡ whole_size (drop read input.now)) × (0 < size) }
    ensures { Asked heads.now moves.now names (drop read input.now) result (stamp + size) space.new }
{
    let role = byte(input, read);
    let chain = links(input, read, size);
    if let Err(refusal) = check_named(names, role, chain) {
        return answer_byte(Err(refusal));
    }
    answer_byte(Ok(run(moves, 2048, role, chain, head(heads, role), stamp, space)))
}
