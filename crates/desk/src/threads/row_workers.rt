// The rows of a network's landmarks, made by several threads at once.
ghost use Rattle.std.specs.Prelude.{◌≡◌, ◌≤◌, ◌<◌, IfOk, Ok, map, drop, length, slice_index};
ghost use Rattle.std.specs.Option.{ForSome};
ghost use Rattle.roadnet.specs.Net.{Net};
ghost use Rattle.roadnet.specs.Walks.{RowOf};
ghost use Rattle.snapshot.specs.Groups.{IsSnapshotOf};
ghost use Rattle.rows.specs.Views.{AreLandmarkRows, IsRowAt};
ghost use Rattle.desk.specs.Leaves.{landmark_of};
ghost use Rattle.desk.specs.Repairs.{IsBefore};
ghost use Rattle.desk.specs.Shares.{share_of, AreRowsOfLandmarks, AreSharesDealt};

use crate::gates::Gate;
use crate::threads::last::{Unbuilt, is_passed};
use crate::threads::leaves::Leave;
use crate::threads::repairs::Before;
use deltastep::{Distances, RowError, Workspace, row_after, row_in};
use relax::{CHUNK, Crew, Team};
use rows::Row;
use shared_network::SharedNetwork;
use snapshot::Snapshot;
use std::alloc::Global;
use std::collections::VecDeque;
use std::sync::atomic::AtomicU64;
use std::thread::{self, Threads};

/// A version whose rows are wanted, and the number of workers that make them.
#[derive(Clone, Copy)]
pub(crate) struct RowJob<'a, G> {
    pub(crate) alloc: Global,
    pub(crate) gate: &'a G,
    pub(crate) last: &'a AtomicU64,
    pub(crate) version: u64,
    pub(crate) network: &'a SharedNetwork,
    pub(crate) snapshot: &'a Snapshot,
    /// An older view, from whose rows those of its landmarks are made.
    pub(crate) before: Option<&'a Before<'a>>,
    pub(crate) workers: u32,
}

impl<G> RowJob<'_, G> {
    /// The least distances from a landmark: from its row in the older view, if that is given and has it, otherwise by a search. They use the workspace as
    /// `row_in` does.
    fn distances_of<T: Team>(
        &self,
        landmark: u32,
        team: &T,
        workspace: &mut Workspace,
    ) -> Result<Distances, RowError>
        requires before { ForSome self.now.before (λ before. IsBefore self.now.snapshot.now before.now) }
        requires node { (1 ≤ landmark) × (landmark ≤ self.now.snapshot.now.nodes) }
        ensures { IfOk result (λ row. (net : Net) → IsSnapshotOf net self.now.snapshot.now → RowOf net landmark row) }
    {
        let Some(before) = self.before else {
            return row_in(self.alloc, self.snapshot, landmark, team, workspace);
        };
        let Some(row) = before.view.find_row(landmark) else {
            return row_in(self.alloc, self.snapshot, landmark, team, workspace);
        };
        row_after(
            self.alloc,
            self.snapshot,
            landmark,
            before.snapshot,
            &row.distances,
            &before.changed,
            before.back,
            team,
            workspace,
        )
    }

    /// The row of the landmark for which the gate gave permission. It uses what an earlier row left in the workspace, and leaves its own memory there.
    fn row_of<T: Team>(
        &self,
        leave: Leave,
        team: &T,
        workspace: &mut Workspace,
    ) -> Result<Row, Unbuilt>
        requires snapshot { IsSnapshotOf self.now.network.now self.now.snapshot.now }
        requires before { ForSome self.now.before (λ before. IsBefore self.now.snapshot.now before.now) }
        requires node { (1 ≤ landmark_of leave) × (landmark_of leave ≤ self.now.snapshot.now.nodes) }
        ensures landmark { IfOk result (λ row. row.landmark ≡ landmark_of leave) }
        ensures right { IfOk result (IsRowAt self.now.version self.now.network.now) }
    {
        let landmark = leave.landmark();
        match self.distances_of(landmark, team, workspace) {
            Ok(distances) => Ok(Row {
                landmark,
                version: self.version,
                distances,
            }),
            Err(RowError::OutOfMemory) => Err(Unbuilt::OutOfMemory),
        }
    }
}

impl<G: Gate> RowJob<'_, G> {
    /// The rows of one worker's landmarks, in their order. Of so many workers, the one with this number, from 0 on, has the landmark at that place and each
    /// `workers`-th after it. Before each row it asks whether the version is to be skipped by now.
    fn rows_of<R: Threads>(&self, rt: &R, worker: u32) -> Result<VecDeque<Row>, Unbuilt>
        requires snapshot { IsSnapshotOf self.now.network.now self.now.snapshot.now }
        requires before { ForSome self.now.before (λ before. IsBefore self.now.snapshot.now before.now) }
        requires worker { worker < self.now.workers }
        requires few { self.now.workers ≤ 64 }
        ensures { IfOk result (λ rows. AreRowsOfLandmarks self.now.version self.now.network.now (share_of self.now.workers worker self.now.network.now.landmarks) rows.items) }
    {
        let crew = Crew::new(rt, CHUNK);
        let mut workspace = Workspace::new();
        let mut rows = VecDeque::new(self.alloc);
        let mut passed = worker;
        for landmark in self.network.landmarks() {
            if passed > 0 {
                passed -= 1;
                continue;
            }
            passed = self.workers - 1;
            if is_passed(self.last, self.version) {
                return Err(Unbuilt::PassedOver);
            }
            let leave = Leave::by(self.gate, worker + 1, *landmark);
            let row = self.row_of(leave, &crew, &mut workspace)?;
            if rows.push_back(row).is_err() {
                return Err(Unbuilt::OutOfMemory);
            }
        }
        Ok(rows)
    }
}

/// The rows of all landmarks, in their order. Each worker makes its rows in a thread of its own, if the system gives one.
pub(crate) fn landmark_rows<G: Gate + Sync, R: Threads + Sync>(
    rt: &R,
    job: &RowJob<'_, G>,
) -> Result<Vec<Row>, Unbuilt>
    requires snapshot { IsSnapshotOf job.now.network.now job.now.snapshot.now }
    requires before { ForSome job.now.before (λ before. IsBefore job.now.snapshot.now before.now) }
    requires some { 1 ≤ job.now.workers }
    requires few { job.now.workers ≤ 64 }
    ensures { IfOk result (λ rows. AreLandmarkRows job.now.version job.now.network.now rows.items) }
{
    let workers = job.workers as usize;
    let made = thread::map_indices(
        rt,
        job.alloc,
        workers,
        &|worker: usize| -> Result<VecDeque<Row>, Unbuilt>
            requires snapshot { IsSnapshotOf job.now.network.now job.now.snapshot.now }
            requires before { ForSome job.now.before (λ before. IsBefore job.now.snapshot.now before.now) }
            requires worker { worker < job.now.workers }
            requires few { job.now.workers ≤ 64 }
            ensures { IfOk result (λ rows. AreRowsOfLandmarks job.entry.now.version job.entry.now.network.now (share_of job.entry.now.workers worker job.entry.now.network.now.landmarks) rows.items) }
        { job.rows_of(rt, worker as u32) },
    );
    match made {
        Ok(made) => gather(job, all_made(job.alloc, made)?),
        Err(_) => Err(Unbuilt::OutOfMemory),
    }
}

/// All values, in their order, if all were made.
fn all_made<T: Drop>(alloc: Global, made: Vec<Result<T, Unbuilt>>) -> Result<VecDeque<T>, Unbuilt>
    ensures { IfOk result (λ values. made.items ≡ map Ok values.items) }
{
    let mut values = VecDeque::new(alloc);
    for value in made {
        if values.push_back(value?).is_err() {
            return Err(Unbuilt::OutOfMemory);
        }
    }
    Ok(values)
}

/// The row of the first of the remaining landmarks, from the rows that the workers have left. Then the next worker is the first.
fn next_row<G>(job: &RowJob<'_, G>, left: &[u32], parts: &mut VecDeque<VecDeque<Row>>) -> Row
    requires some { 0 < length left.now }
    requires dealt { AreSharesDealt job.now.version job.now.network.now job.now.workers left.now (map (λ rows. rows.items) parts.old.items) }
    requires workers { 1 ≤ job.now.workers }
    ensures landmark { result.landmark ≡ slice_index left.now 0 }
    ensures right { IsRowAt job.now.version job.now.network.now result }
    ensures dealt { AreSharesDealt job.now.version job.now.network.now job.now.workers (drop 1 left.now) (map (λ rows. rows.items) parts.new.items) }
{
    let mut part = parts.pop_front().unwrap();
    let row = part.pop_front().unwrap();
    parts.push_back_reserved(part);
    row
}

/// The rows of all landmarks, in their order, from those of each worker.
fn gather<G>(job: &RowJob<'_, G>, mut parts: VecDeque<VecDeque<Row>>) -> Result<Vec<Row>, Unbuilt>
    requires dealt { AreSharesDealt job.now.version job.now.network.now job.now.workers job.now.network.now.landmarks (map (λ rows. rows.items) parts.items) }
    requires workers { 1 ≤ job.now.workers }
    ensures { IfOk result (λ rows. AreLandmarkRows job.now.version job.now.network.now rows.items) }
{
    let landmarks = job.network.landmarks();
    let mut rows = match Vec::with_capacity(job.alloc, landmarks.len()) {
        Ok(rows) => rows,
        Err(_) => return Err(Unbuilt::OutOfMemory),
    };
    for place in 0..landmarks.len() {
        rows.push_reserved(next_row(job, &landmarks[place..], &mut parts));
    }
    Ok(rows)
}
