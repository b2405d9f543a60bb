//! The event lines of a journal, read.

ghost use Rattle.std.specs.Prelude.{◌≡◌, ◌≢◌, ◌++◌, ◌∷◌, [], ℕ, codes, true, MatchOption};
ghost use Rattle.std.specs.Fmt.{decimal};
ghost use Rattle.gib_locked.specs.{Lines.{are_lines, is_line, is_task, may_follow}, JournalText.{line_text, numbers_text, word_text}};
ghost use Rattle.gib_locked.specs.declared.journal.Line.TheVariants.{Steps};

use crate::cut::{cut, read_number};
use crate::journal::{Line, MOST};

/// The number of a task that the text is.
fn read_task(text: &[u8]) -> Option<u32>
    ensures { MatchOption result ((t : ℕ) → is_task t ≡ true → text.now ≡ decimal t → ⊥) (λ t. (is_task t ≡ true) × (text.now ≡ decimal t)) }
{
    let Some(number) = read_number(text) else {
        return None;
    };
    if number > u32::MAX as u64 {
        return None;
    }
    Some(number as u32)
}

/// The number of a task, and how many steps it makes, that the text is.
fn read_steps(text: &[u8]) -> Option<(u32, u64)>
    ensures { MatchOption result
        ((t n : ℕ) → is_line (Steps t n) ≡ true → text.now ≡ numbers_text (Steps t n) → ⊥)
        (λ p. (is_line (Steps p.0 p.1) ≡ true) × (text.now ≡ numbers_text (Steps p.0 p.1))) }
{
    let Some(numbers) = cut(text, b' ') else {
        return None;
    };
    let Some(task) = read_task(numbers.front) else {
        return None;
    };
    let Some(count) = read_number(numbers.rest) else {
        return None;
    };
    if count == 0 {
        return None;
    }
    if count > MOST {
        return None;
    }
    Some((task, count))
}

/// The line of the event of a task, other than a step, that the word names.
fn line_named(word: &[u8], task: u32) -> Option<Line>
    ensures { MatchOption result
        ((l : Line) → word.now ≡ word_text l → word.now ≡ codes "step")
        (λ l. (is_line l ≡ true) × (word.now ≡ word_text l) × (numbers_text l ≡ decimal task)) }
{
    if word == b"fork".as_slice() {
        Some(Line::Forks(task))
    } else if word == b"steal".as_slice() {
        Some(Line::Steals(task))
    } else if word == b"take".as_slice() {
        Some(Line::Takes(task))
    } else if word == b"finish".as_slice() {
        Some(Line::Finishes(task))
    } else if word == b"join".as_slice() {
        Some(Line::Joins(task))
    } else {
        None
    }
}

/// The line of which this is the text, without its line feed.
fn read_line(text: &[u8]) -> Option<Line>
    ensures { MatchOption result ((l : Line) → is_line l ≡ true → text.now ≡ line_text l → ⊥) (λ l. (is_line l ≡ true) × (text.now ≡ line_text l)) }
{
    let Some(parts) = cut(text, b' ') else {
        return None;
    };
    if parts.front == b"step".as_slice() {
        return match read_steps(parts.rest) {
            Some((task, count)) => Some(Line::Steps(task, count)),
            None => None,
        };
    }
    let Some(task) = read_task(parts.rest) else {
        return None;
    };
    match line_named(parts.front, task) {
        Some(line) => Some(line),
        None => None,
    }
}

/// Whether the second line may stand directly behind the first.
fn may_follow(last: Line, line: Line) -> bool
    ensures { result ≡ may_follow last line }
{
    match (last, line) {
        (Line::Steps(task, count), Line::Steps(other, _)) => task != other || count == MOST,
        _ => true,
    }
}

/// Whether the line may stand behind these.
fn may_be_next(lines: &Vec<Line>, line: Line) -> bool
    requires are { are_lines lines.now.items ≡ true }
    requires is { is_line line ≡ true }
    ensures { result ≡ are_lines (lines.now.items ++ line ∷ []) }
{
    match lines.last() {
        None => true,
        Some(last) => may_follow(*last, line),
    }
}

/// The line that may stand behind these, of which this is the text.
pub(crate) fn read_next(lines: &Vec<Line>, text: &[u8]) -> Option<Line>
    requires { are_lines lines.now.items ≡ true }
    ensures { MatchOption result
        ((l : Line) → are_lines (lines.now.items ++ l ∷ []) ≡ true → text.now ≡ line_text l → ⊥)
        (λ l. (are_lines (lines.now.items ++ l ∷ []) ≡ true) × (text.now ≡ line_text l)) }
{
    let Some(line) = read_line(text) else {
        return None;
    };
    if may_be_next(lines, line) {
        Some(line)
    } else {
        None
    }
}
