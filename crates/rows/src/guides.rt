//! Searches that the rows of landmarks lead.

ghost use Rattle.std.specs.Prelude.{◌≡◌, ◌+◌, ◌≤◌, ℕ, All, IfOk, IfSome, MatchOption, length, unwrap_or, map};
ghost use Rattle.std.specs.Option.{ForSome};
ghost use Rattle.roadnet.specs.Net.{IsNode};
ghost use Rattle.roadnet.specs.Walks.{Least, NoWalk};
ghost use Rattle.snapshot.specs.Groups.{Groups};
ghost use Rattle.roadnet.specs.Walks.{distance_at};
ghost use Rattle.relax.specs.Values.{value_at};
ghost use Rattle.deltastep.specs.Guided.{IsLowerBound};
ghost use Rattle.deltastep.specs.Words.{distance_of_short};
ghost use Rattle.rows.specs.Guides.{AreRowsAlike, AreOfSnapshot, PotentialAtTarget, PotentialIsConsistent, TellNoMore, leading, tells_at_least, potential_by, potential_of, potential_toward, told_toward};

use crate::landmark_rows::Row;
use crate::views::View;
use chunked::WordTable;
use deltastep::{Guide, RowError, Workspace, distance_to_in, values_guided_in};
use kept_rows::told_by;
use relax::{Team, Tentative};
use std::alloc::Global;

/// What is known of the potential of landmarks.
pub fn laws_of_potentials()
    ensures consistent { PotentialIsConsistent }
    ensures at_target { PotentialAtTarget }
{}

/// How many landmarks lead a search, if there are so many: those that give the greatest bound at its source. More of them settle fewer nodes, and take
/// longer at each.
const LEADERS: usize = 8;

/// The bound that a row gives for the ways from a node to the target, or 0.
fn told_of(row: &Row, target: u32, node: u32) -> u64
    ensures { result ≡ potential_by row.now.distances target node }
{
    told_by(&row.distances, u64::from(node), u64::from(target)).unwrap_or(0)
}

/// The potential of a node: the greatest bound that these rows give for the ways from it to the target. It takes no memory.
fn potential_of(rows: &[Row], target: u32, node: u32) -> u64
    ensures { result ≡ potential_of rows.now target node }
{
    let mut potential: u64 = 0;
    for row in rows {
        potential = potential.max(told_of(row, target, node));
    }
    potential
}

/// The bound that each of these rows gives at the source, in their order.
fn told_by_each(alloc: Global, rows: &[Row], target: u32, source: u32) -> Option<Vec<u64>> {
    let mut told = Vec::new(alloc);
    for row in rows {
        if told.push(told_of(row, target, source)).is_err() {
            return None;
        }
    }
    Some(told)
}

/// The eighth greatest of these, or the least if there are fewer, or 0 if there are none.
fn least_leader(mut told: Vec<u64>) -> u64 {
    told.sort_unstable();
    let beside = told.len().saturating_sub(LEADERS);
    match told.get(beside) {
        Some(least) => *least,
        None => 0,
    }
}

/// The least bound at the source with which a row leads. It is at most the greatest bound of a row.
fn least_told(alloc: Global, rows: &[Row], target: u32, source: u32) -> Option<u64>
    ensures { IfSome result (λ least. least ≤ potential_of rows.now target source) }
{
    let told = told_by_each(alloc, rows, target, source)?;
    let greatest = potential_of(rows, target, source);
    Some(least_leader(told).min(greatest))
}

/// Whether the bound of a row at the source is at least this.
fn leads(row: &Row, target: u32, source: u32, least: u64) -> bool
    ensures { result ≡ tells_at_least least target source row.now }
{
    least <= told_of(row, target, source)
}

/// A row that is kept in words of 4 bytes, and the length of the landmark's way to a target, or 0 if no walk leads there.
#[derive(Drop)]
struct Toward<'a> {
    words: WordTable<'a>,
    to_target: u32,
}

/// The length that such words have for a node, or 0 if they say that no walk leads there.
fn length_to(words: &WordTable, node: u32) -> u32
    ensures { result ≡ unwrap_or (distance_at (map distance_of_short words.now) node) 0 }
{
    if node == 0 || node as usize > words.len() {
        return 0;
    }
    let word = words.get((node - 1) as usize);
    if word == u32::MAX {
        return 0;
    }
    word
}

/// A row as it is read for a target, if it is kept in words of 4 bytes.
fn toward_of<'a>(row: &'a Row, target: u32) -> Option<Toward<'a>>
    ensures words { IfSome result (λ toward. row.now.distances ≡ map distance_of_short toward.words) }
    ensures to_target { IfSome result (λ toward. toward.to_target ≡ unwrap_or (distance_at (map distance_of_short toward.words) target) 0) }
{
    let Some(words) = row.distances.short_words() else {
        return None;
    };
    let words = words.table();
    let to_target = length_to(&words, target);
    Some(Toward { words, to_target })
}

/// Those rows whose bound at the source is at least this, as they are read for a target, if all of them are kept in words of 4 bytes and there is memory.
fn towards_of<'a>(
    alloc: Global,
    rows: &'a [Row],
    target: u32,
    source: u32,
    least: u64,
) -> Option<Vec<Toward<'a>>>
    ensures { IfSome result (λ towards. AreRowsAlike towards.items (leading least target source rows.now) target) }
{
    let mut towards = Vec::new(alloc);
    for row in rows {
        if leads(row, target, source, least) {
            let Some(toward) = toward_of(row, target) else {
                return None;
            };
            if towards.push(toward).is_err() {
                return None;
            }
        }
    }
    Some(towards)
}

/// How many words each of these rows has at least.
fn shortest_of(towards: &[Toward]) -> usize
    ensures { All (λ toward. result ≤ length toward.words) towards.now }
{
    let mut shortest: usize = usize::MAX;
    for toward in towards {
        shortest = shortest.min(toward.words.len());
    }
    shortest
}

/// The rows that lead a search, and how many words each of them has at least.
#[derive(Drop)]
struct Leaders<'a> {
    towards: Vec<Toward<'a>>,
    shortest: usize,
    ghost long: { All (λ toward. shortest ≤ length toward.words) towards.items },
}

/// The rows with the greatest bounds at the source, as they are read for a target.
fn leaders_of<'a>(alloc: Global, rows: &'a [Row], target: u32, source: u32) -> Option<Leaders<'a>>
    ensures below { IfSome result (λ leaders. TellNoMore leaders.towards.items rows.now target) }
    ensures source { IfSome result (λ leaders. potential_toward leaders.towards.items source ≡ potential_of rows.now target source) }
{
    let least = least_told(alloc, rows, target, source)?;
    let towards = towards_of(alloc, rows, target, source, least)?;
    let shortest = shortest_of(&towards);
    Some(Leaders { towards, shortest })
}

/// The bound that a row gives for a node that it has a word for: by how much the way to the target is longer, or 0.
#[inline(always)]
fn told_toward(toward: &Toward, node: u32) -> u32
    requires node { (1 ≤ node) × (node ≤ length toward.now.words) }
    ensures { result ≡ told_toward toward.now node }
{
    let word = toward.words.get((node - 1) as usize);
    toward.to_target.max(word) - word
}

/// The greatest bound that these rows give for a node that each has a word for.
#[inline(always)]
fn potential_toward(towards: &[Toward], node: u32) -> u64
    requires node { 1 ≤ node }
    requires long { All (λ toward. node ≤ length toward.words) towards.now }
    ensures { result ≡ potential_toward towards.now node }
{
    let mut potential: u32 = 0;
    for toward in towards {
        potential = potential.max(told_toward(toward, node));
    }
    u64::from(potential)
}

impl Leaders<'_> {
    /// The greatest bound that the rows give for a node, or 0 if not each has a word for it.
    #[inline(always)]
    fn potential(&self, node: u32) -> u64
        ensures below { result ≤ potential_toward self.now.towards.items node }
        ensures within { 1 ≤ node → node ≤ self.now.shortest → result ≡ potential_toward self.now.towards.items node }
    {
        if node == 0 || node as usize > self.shortest {
            return 0;
        }
        potential_toward(&self.towards, node)
    }
}

/// The rows of landmarks as a guide to a target.
#[derive(Drop)]
pub struct Landmarks<'a> {
    rows: &'a [Row],
    target: u32,
    leaders: Option<Leaders<'a>>,
}

impl<'a> Landmarks<'a> {
    /// These rows, of one network, as a guide from a source to a target of it. Eight of them lead, those with the greatest bounds at the source; or more,
    /// if some have the same bound as the eighth. It takes 8 bytes a landmark and 24 for each that leads. If there is no memory, or a row has words of 8
    /// bytes, all rows lead as they are, which takes longer.
    pub fn new(alloc: Global, rows: &'a [Row], source: u32, target: u32) -> Landmarks<'a>
        ensures rows { result.rows.now ≡ rows.now }
        ensures target { result.target ≡ target }
        ensures below { ForSome result.leaders (λ leaders. TellNoMore leaders.towards.items result.rows.now result.target) }
        ensures source { ForSome result.leaders (λ leaders. potential_toward leaders.towards.items source ≡ potential_of result.rows.now result.target source) }
    {
        Landmarks {
            rows,
            target,
            leaders: leaders_of(alloc, rows, target, source),
        }
    }
}

impl<'a> Guide for Landmarks<'a> {
    ghost target = { λ guide. guide.target };

    ghost knows = { λ guide groups. ForSome guide.leaders (λ leaders. TellNoMore leaders.towards.items guide.rows.now guide.target) × AreOfSnapshot guide.rows.now guide.target groups };

    fn bound(&self, node: u32) -> u64 {
        if let Some(leaders) = &self.leaders {
            return leaders.potential(node);
        }
        potential_of(self.rows, self.target, node)
    }
}

impl View {
    /// The least length of a walk from `source` to `target` in the view's network, or nothing if no walk leads there. The search is led by the rows of the
    /// landmarks; if there is no landmark, it just stops at the target. It keeps no row. Its only error is lack of memory.
    pub(crate) fn distance_in<T: Team>(
        &self,
        alloc: Global,
        source: u32,
        target: u32,
        team: &T,
        workspace: &mut Workspace,
    ) -> Result<Option<u64>, RowError>
        requires source { IsNode self.now.network source }
        requires target { IsNode self.now.network target }
        ensures distance { IfOk result (λ distance. MatchOption distance (NoWalk self.now.network source target) (Least self.now.network source target)) }
    {
        let Some(values) = self.led_values(alloc, source, target, workspace)? else {
            return distance_to_in(alloc, self.snapshot(), source, target, team, workspace);
        };
        let distance = values.get(target);
        workspace.keep_values(values);
        Ok(distance)
    }

    /// The values of the search of `distance_in`, as `deltastep::values_guided_in` gives them, if there are landmarks.
    pub(crate) fn led_values(
        &self,
        alloc: Global,
        source: u32,
        target: u32,
        workspace: &mut Workspace,
    ) -> Result<Option<Tentative>, RowError>
        requires source { IsNode self.now.network source }
        requires target { IsNode self.now.network target }
        ensures places { IfOk result (λ led. IfSome led (λ values. length values ≡ self.now.network.nodes + 1)) }
        ensures distance { IfOk result (λ led. IfSome led (λ values. MatchOption (value_at values target) (NoWalk self.now.network source target) (Least self.now.network source target))) }
    {
        let snapshot = self.snapshot();
        let rows = self.rows();
        if rows.is_empty() {
            return Ok(None);
        }
        let guide = Landmarks::new(alloc, rows, source, target);
        let values = values_guided_in(alloc, snapshot, source, target, &guide, workspace)?;
        Ok(Some(values))
    }
}
