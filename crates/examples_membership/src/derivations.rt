// Tries derivations of the chains that are asked about books made from a seed. Each question is put to the answerer and to the writer; what is
// written is put to the checker and to a second reading, and so is what comes of it by damage.
// Damage of kind n is counted from 4 n on: tried, agreed on, led to the chain, led elsewhere; all damage from VERDICTS on by what the second reading says.
ghost use Rattle.std.specs.Prelude.{◌<◌};

use crate::chain::{size, spelled};
use crate::compare::said;
use crate::counts::Counts;
use crate::damage::{Damage, apply, kind_of};
use crate::draw::Seed;
use crate::lent_tables::{ROOM, build, front};
use crate::make::make_book;
use crate::questions::{Question, draw_question};
use crate::rules::rules_of;
use crate::slow_reading::{Reading, read};
use crate::written::{BLANK, blank, reading_of, split_written};
use byte_parts::byte;
use refusals::BookQueryRefusal;

// Damage is counted from here on by what the second reading says: no, yes, not in fours, impossible at steps 0 to 7, and behind.
const VERDICTS: usize = 32;

// Questions asked; then those on which the writer and the answerer agree.
const ASKED: usize = 48;

// Derivations written; then those accepted by the checker, accepted by the second reading, of at most 4,096 steps, and with the bytes behind kept.
const YES: usize = 50;

// Questions answered by no; then those with all bytes kept.
const NO: usize = 55;

// Books made; then those accepted.
const BOOKS: usize = 57;

// Tries 1,000 books made from a seed, each on 60 questions.
pub(crate) fn try_derivations() {
    let mut seed = Seed(1);
    let mut counts = Counts::new();
    for _ in 0..1000 {
        let made = make_book(&mut seed);
        try_book(made.book(), &mut seed, &mut counts);
    }
    counts.tell(
        b"books made: \xB9, accepted \xBA\nquestions: asked \xB0, agreed \xB1\nyes: \xB2, accepted \xB3, by the second reading \xB4, of at most 4,096 steps \xB5, bytes behind them kept \xB6\nno: \xB7, all bytes kept \xB8\nmost steps: \xBF\nA bit flipped in\nthe place's low byte: tried \x80, agreed \x81, yes \x82, no \x83\nits high byte: tried \x84, agreed \x85, yes \x86, no \x87\nthe rule: tried \x88, agreed \x89, yes \x8A, no \x8B\nthe side: tried \x8C, agreed \x8D, yes \x8E, no \x8F\nOther damage\nup to 8 bytes cut off: tried \x90, agreed \x91, yes \x92, no \x93\na step twice: tried \x94, agreed \x95, yes \x96, no \x97\na step left out: tried \x98, agreed \x99, yes \x9A, no \x9B\ntwo steps swapped: tried \x9C, agreed \x9D, yes \x9E, no \x9F\nAll damage\nyes: \xA1\nno: \xA0\nnot in fours: \xA2\nimpossible at steps 0 to 7 and behind: \xA3 \xA4 \xA5 \xA6 \xA7 \xA8 \xA9 \xAA \xAB\n",
    );
}

// Builds the tables of a book; where it is accepted, puts its questions to them and to the writer.
fn try_book(book: &[u8], seed: &mut Seed, counts: &mut Counts) {
    let mut heads = [0u16; ROOM];
    let mut moves = [0u16; ROOM];
    let built = build(book, &mut heads, &mut moves);
    counts.count(BOOKS, &[true, built.is_ok()]);
    if let Ok(sizes) = built {
        let heads = front(&heads, sizes.heads);
        let moves = front(&moves, sizes.moves);
        derive_all(book, heads, moves, seed, counts);
    }
}

// Puts 60 questions to tables and to the writer.
fn derive_all(book: &[u8], heads: &[u16], moves: &[u16], seed: &mut Seed, counts: &mut Counts) {
    let rules = rules_of(book);
    let roles = u64::from(byte(book, 5)) * 2;
    for i in 0..60 {
        let question = draw_question(i, seed, &rules, roles);
        derive(book, heads, moves, &rules, question, counts);
    }
}

// Puts a question to tables and to the writer.
fn derive(
    book: &[u8],
    heads: &[u16],
    moves: &[u16],
    rules: &[u64; 192],
    question: Question,
    counts: &mut Counts,
) {
    let role = (question.role % 16) as u8;
    let space = spelled(question.chain);
    let links = &space[..size(question.chain)];
    let answer = said(query_answerer::ask(heads, moves, role, links));
    let mut buffer = [BLANK; 16384];
    let told = derivation_writer::write(book, role, links, &mut buffer);
    let agreed = matches!((told, answer), (Ok(steps), Ok(yes)) if steps.is_some() == yes);
    counts.count(ASKED, &[true, agreed]);
    check(book, rules, role, links, told, &buffer, counts);
}

// Puts what is written to the checker and to the second reading, and damages it.
fn check(
    book: &[u8],
    rules: &[u64; 192],
    role: u8,
    links: &[u8],
    told: Result<Option<usize>, BookQueryRefusal>,
    buffer: &[u8],
    counts: &mut Counts,
) {
    let (steps, behind) = split_written(buffer, told);
    let kept = blank(behind);
    match told {
        Ok(Some(count)) => {
            let judged = judge(book, rules, role, links, steps);
            let first = judged.first == Some(Reading::Yes);
            let second = judged.second == Reading::Yes;
            counts.count(YES, &[true, first, second, count <= 4096, kept]);
            counts.keep_most(count);
            damage_all(
                book,
                rules,
                role,
                links,
                &steps[..steps.len().min(252)],
                counts,
            );
        }
        Ok(None) => counts.count(NO, &[true, kept]),
        Err(_) => {}
    }
}

// What the checker and the second reading make of some steps.
#[derive(Clone, Copy)]
struct Judged {
    first: Option<Reading>,
    second: Reading,
}

fn judge(book: &[u8], rules: &[u64; 192], role: u8, links: &[u8], steps: &[u8]) -> Judged {
    Judged {
        first: reading_of(derivation_checker::check(book, role, links, steps)),
        second: read(rules, usize::from(byte(book, 6)), role, links, steps),
    }
}

// Damages a derivation in 288 ways: each bit of the first eight steps is flipped; 1 to 8 bytes are cut off; and one of these steps stands twice, is left
// out, or is swapped with the next.
fn damage_all(
    book: &[u8],
    rules: &[u64; 192],
    role: u8,
    links: &[u8],
    steps: &[u8],
    counts: &mut Counts,
) {
    for place in 0..32 {
        for bit in 0..8u32 {
            damage_so(
                book,
                rules,
                role,
                links,
                steps,
                Damage::Flipped(place, 1 << bit),
                counts,
            );
        }
    }
    for i in 0..8 {
        for damage in [
            Damage::Cut(i + 1),
            Damage::Twice(4 * i),
            Damage::Missing(4 * i),
            Damage::Swapped(4 * i),
        ] {
            damage_so(book, rules, role, links, steps, damage, counts);
        }
    }
}

// Damages a derivation in a way, where that applies, and counts it by how it is judged.
fn damage_so(
    book: &[u8],
    rules: &[u64; 192],
    role: u8,
    links: &[u8],
    steps: &[u8],
    damage: Damage,
    counts: &mut Counts,
) {
    let Some(after) = apply(steps, damage) else {
        return;
    };
    let judged = judge(book, rules, role, links, after.steps());
    let agreed = judged.first == Some(judged.second);
    let yes = judged.second == Reading::Yes;
    let no = judged.second == Reading::No;
    counts.count(4 * kind_of(damage), &[true, agreed, yes, no]);
    counts.count(VERDICTS + verdict(judged.second), &[true]);
}

// Where damage is counted that the second reading judges so.
fn verdict(reading: Reading) -> usize
    ensures { result < 12 }
{
    match reading {
        Reading::No => 0,
        Reading::Yes => 1,
        Reading::Uneven => 2,
        Reading::Impossible(step) => 3 + step.min(8),
    }
}
