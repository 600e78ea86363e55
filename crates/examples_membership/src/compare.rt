// Puts a question to the answerer and to the second method.
use crate::chain::{size, spelled};
use crate::counts::Counts;
use crate::questions::{Kind, Question};
use crate::second::derives;
use refusals::{QueryRefusal, Refusal};

// Puts a question to tables and to rules, and counts it by its kind: asked, agreed on, and answered by yes.
pub(crate) fn compare(
    heads: &[u16],
    moves: &[u16],
    rules: &[u64; 192],
    question: Question,
    counts: &mut Counts,
) {
    let space = spelled(question.chain);
    let links = &space[..size(question.chain)];
    let first = said(query_answerer::ask(heads, moves, (question.role % 16) as u8, links));
    let second = derives(rules, question.role, question.chain);
    let agreed = matches!(first, Ok(yes) if yes == second);
    counts.count(first_count(question.kind), &[true, agreed, second]);
}

// Where questions of a kind are counted from.
fn first_count(kind: Kind) -> usize {
    match kind {
        Kind::Derived => 0,
        Kind::Nearly => 3,
        Kind::Random => 6,
        Kind::Every => 9,
    }
}

// Yes or no, or the cause of the refusal.
pub(crate) fn said(answer: Result<bool, QueryRefusal>) -> Result<bool, usize> {
    match answer {
        Ok(found) => Ok(found),
        Err(refusal) => Err(refusal.cause()),
    }
}
