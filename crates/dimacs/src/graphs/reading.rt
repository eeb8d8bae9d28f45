//! One line of a `.gr` text.
ghost use Rattle.std.specs.Prelude.{◌≡◌, ◌≢◌, IfErr, if◌then◌else◌};
ghost use Rattle.std.specs.Option.{option_map};
ghost use Rattle.dimacs.specs.Lines.{fields};
ghost use Rattle.dimacs.specs.Reading.{first_numeral, one_numeral, two_numerals, three_numerals, arc_of_numerals, item_after, problem_of_numerals, problem_after};

use crate::fault::Code;
use crate::graphs::problem::{Problem, after_kind};
use crate::lines::line::split_field;
use crate::numerals::numeral::Numeral;
use roadnet::{LONGEST_ARC, MOST_ARCS, MOST_NODES, RoadArc};

/// The first field as a numeral, and what follows it.
fn split_numeral(numbers: &[u8]) -> Option<(Numeral, &[u8])>
    ensures { option_map (λ x. (x.0, fields x.1.now)) result ≡ first_numeral (fields numbers.now) }
{
    let (field, rest) = split_field(numbers)?;
    let number = Numeral::parse(field)?;
    Some((number, rest))
}

/// One numeral and no other field.
pub fn split_one(numbers: &[u8]) -> Option<Numeral>
    ensures { result ≡ one_numeral (fields numbers.now) }
{
    let (number, rest) = split_numeral(numbers)?;
    match split_field(rest) {
        None => Some(number),
        Some(_) => None,
    }
}

/// Two numerals and no other field.
pub(crate) fn split_two(numbers: &[u8]) -> Option<(Numeral, Numeral)>
    ensures { result ≡ two_numerals (fields numbers.now) }
{
    let (first, rest) = split_numeral(numbers)?;
    let (second, rest) = split_numeral(rest)?;
    match split_field(rest) {
        None => Some((first, second)),
        Some(_) => None,
    }
}

/// Three numerals and no other field.
pub(crate) fn split_three(numbers: &[u8]) -> Option<(Numeral, Numeral, Numeral)>
    ensures { result ≡ three_numerals (fields numbers.now) }
{
    let (first, rest) = split_numeral(numbers)?;
    let (second, rest) = split_numeral(rest)?;
    let (third, rest) = split_numeral(rest)?;
    match split_field(rest) {
        None => Some((first, second, third)),
        Some(_) => None,
    }
}

/// The arc of an item line that comes after so many items.
pub(crate) fn item(problem: Option<Problem>, taken: usize, numbers: &[u8]) -> Result<RoadArc, Code>
    ensures reads_nothing { IfErr result (λ code. code ≢ Code.Read) }
    ensures value { result ≡ item_after problem taken (three_numerals (fields numbers.now)) }
{
    let Some((tail, head, length)) = split_three(numbers) else {
        return Err(Code::BadLine);
    };
    let Some(problem) = problem else {
        return Err(Code::NoProblemLine);
    };
    arc(problem, taken, tail, head, length)
}

fn arc(
    problem: Problem,
    taken: usize,
    tail: Numeral,
    head: Numeral,
    length: Numeral,
) -> Result<RoadArc, Code>
    ensures reads_nothing { IfErr result (λ code. code ≢ Code.Read) }
    ensures value { result ≡ arc_of_numerals problem taken tail head length }
{
    if tail.is_unreadable() || head.is_unreadable() || length.is_unreadable() {
        return Err(Code::NumberRange);
    }
    let nodes = u64::from(problem.nodes);
    if tail.is_outside(1, nodes) || head.is_outside(1, nodes) {
        return Err(Code::NodeRange);
    }
    if length.is_outside(0, u64::from(LONGEST_ARC)) {
        return Err(Code::LengthRange);
    }
    if problem.items as usize <= taken {
        return Err(Code::LineCount);
    }
    Ok(RoadArc {
        tail: tail.size as u32,
        head: head.size as u32,
        length: length.size as u32,
        opened: true,
    })
}

/// The fault of a problem line with other kind words.
pub(crate) fn other_kind<X>(has_problem: bool) -> Result<X, Code>
    ensures { result ≡ (if has_problem then Err Code.SecondProblemLine else Err Code.WrongKind) }
{
    if has_problem {
        Err(Code::SecondProblemLine)
    } else {
        Err(Code::WrongKind)
    }
}

/// What a problem line announces, given the words after `p`.
pub(crate) fn problem(has_problem: bool, words: &[u8]) -> Result<Problem, Code>
    ensures reads_nothing { IfErr result (λ code. code ≢ Code.Read) }
    ensures value { result ≡ problem_after has_problem (fields words.now) }
{
    match after_kind(words) {
        None => other_kind(has_problem),
        Some(counts) => {
            let Some((nodes, items)) = split_two(counts) else {
                return Err(Code::BadLine);
            };
            if has_problem {
                return Err(Code::SecondProblemLine);
            }
            announced(nodes, items)
        }
    }
}

fn announced(nodes: Numeral, items: Numeral) -> Result<Problem, Code>
    ensures reads_nothing { IfErr result (λ code. code ≢ Code.Read) }
    ensures value { result ≡ problem_of_numerals nodes items }
{
    if nodes.is_unreadable() || items.is_unreadable() {
        return Err(Code::NumberRange);
    }
    if nodes.is_under(1) || items.is_under(0) {
        return Err(Code::NumberRange);
    }
    if nodes.is_over(u64::from(MOST_NODES)) || items.is_over(MOST_ARCS as u64) {
        return Err(Code::TooLarge);
    }
    Ok(Problem {
        nodes: nodes.size as u32,
        items: items.size as u32,
    })
}
