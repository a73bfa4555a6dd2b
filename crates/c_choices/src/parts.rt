//! The parts of a statement at its first question mark.

ghost use Rattle.std.specs.Prelude.{◌≡◌, ◌<◌, ◌≤◌, ◌+◌, ◌^◌, [], None, Some, length, IfSome, MatchOption};
ghost use Rattle.c_grammar.specs.Changes.{reversed};
ghost use Rattle.c_grammar.specs.Choices.{condition_len, cut, first_len, parts, question_at, questions_behind, second_len};
ghost use Rattle.c_choices.specs.Parts.{seen_parts};
ghost use Rattle.c_terminals.specs.Seen.{seen, seen_all};

use crate::kinds::{
    begins_condition, brackets_before, brackets_behind, closes, ends_second, is_question,
};
use c_terminals::Token;
use c_tokens::Sign;

/// `before condition mark first : second behind`.
#[derive(Clone, Copy)]
pub struct Parted<'a, 'l, 's> {
    pub mark: Token<'a, 'l>,
    pub before: &'s [Token<'a, 'l>],
    pub condition: &'s [Token<'a, 'l>],
    pub first: &'s [Token<'a, 'l>],
    pub second: &'s [Token<'a, 'l>],
    pub behind: &'s [Token<'a, 'l>],
}

/// How many tokens stand before the first question mark.
fn question_at(tokens: &[Token<'_, '_>]) -> Option<usize>
    ensures value { result ≡ question_at 0 (seen_all tokens.now) }
    ensures within { IfSome result (λ n. n < length tokens.now) }
{
    let mut before = 0usize;
    let mut rest = tokens;
    'tokens: while let [token, behind @ ..] = rest {
        if is_question(*token) {
            return Some(before);
        }
        rest = behind;
        before += 1;
    }
    None
}

/// So many of the last tokens before a question mark are its condition; 0 where it has none.
fn condition_len(before: &[Token<'_, '_>]) -> usize
    ensures value { result ≡ condition_len 0 0 (reversed (seen_all before.now) []) }
    ensures within { result ≤ length before.now }
{
    let mut len = 0usize;
    let mut brackets = 0usize;
    let mut rest = before;
    'tokens: while let [front @ .., token] = rest {
        if brackets == 0 && begins_condition(*token) {
            return len;
        }
        brackets = brackets_before(*token, brackets);
        rest = front;
        len += 1;
    }
    0
}

// How many question marks have no colon behind a token outside of brackets.
fn questions_behind(token: Token<'_, '_>, questions: usize) -> usize
    requires { questions < 2 ^ 63 }
    ensures value { result ≡ questions_behind (seen token.entry) questions }
    ensures within { result ≤ questions + 1 }
{
    if is_question(token) {
        return questions + 1;
    }
    if token.terminal.is_sign(Sign::Colon) {
        return questions.saturating_sub(1);
    }
    questions
}

/// So many tokens stand behind a question mark before its colon; 0 where it has none.
fn first_len(behind: &[Token<'_, '_>]) -> usize
    ensures value { result ≡ first_len 0 0 0 (seen_all behind.now) }
    ensures within { 0 < result → result < length behind.now }
{
    let mut len = 0usize;
    let mut brackets = 0usize;
    let mut questions = 0usize;
    let mut rest = behind;
    'tokens: while let [token, others @ ..] = rest {
        if brackets == 0 {
            if closes(*token) {
                return 0;
            }
            if questions == 0 && token.terminal.is_sign(Sign::Colon) {
                return len;
            }
            questions = questions_behind(*token, questions);
        }
        brackets = brackets_behind(*token, brackets);
        rest = others;
        len += 1;
    }
    0
}

/// So many tokens stand behind a colon before the end of the second choice; 0 where it has none.
fn second_len(behind: &[Token<'_, '_>]) -> usize
    ensures value { result ≡ second_len 0 0 (seen_all behind.now) }
    ensures within { result ≤ length behind.now }
{
    let mut len = 0usize;
    let mut brackets = 0usize;
    let mut rest = behind;
    'tokens: while let [token, others @ ..] = rest {
        if brackets == 0 && ends_second(*token) {
            return len;
        }
        brackets = brackets_behind(*token, brackets);
        rest = others;
        len += 1;
    }
    0
}

// The parts of a statement before its first question mark, and from it on.
fn cut<'a, 'l, 's>(
    front: &'s [Token<'a, 'l>],
    rest: &'s [Token<'a, 'l>],
) -> Option<Parted<'a, 'l, 's>>
    ensures { MatchOption result (cut (seen_all front.now) (seen_all rest.now) ≡ None)
        (λ p. cut (seen_all front.now) (seen_all rest.now) ≡ Some (seen_parts p)) }
{
    let [mark, behind @ ..] = rest else {
        return None;
    };
    let condition = condition_len(front);
    let first = first_len(behind);
    if condition == 0 || first == 0 {
        return None;
    }
    let others = &behind[first + 1..];
    let second = second_len(others);
    if second == 0 {
        return None;
    }
    let (before, condition) = front.split_at(front.len() - condition);
    let (second, end) = others.split_at(second);
    Some(Parted {
        mark: *mark,
        before,
        condition,
        first: &behind[..first],
        second,
        behind: end,
    })
}

/// The parts of a statement, where none of them is empty.
pub fn parts<'a, 'l, 's>(statement: &'s [Token<'a, 'l>]) -> Option<Parted<'a, 'l, 's>>
    ensures { MatchOption result (parts (seen_all statement.now) ≡ None)
        (λ p. parts (seen_all statement.now) ≡ Some (seen_parts p)) }
{
    let (front, rest) = statement.split_at(question_at(statement)?);
    cut(front, rest)
}
