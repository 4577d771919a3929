//! Which rows of each node are taken, and what they need.
ghost use Rattle.std.specs.Prelude.{◌≡◌, ◌+◌, ◌*◌, ◌^◌, ◌<◌, ◌≤◌, ◌∷◌, [], ◌++◌, IfErr, IfOk, OnOk, false, length, true};
ghost use Rattle.vx_arrow_columns.specs.Answer.{IsPlanRefusal, IsUnmeant};
ghost use Rattle.vx_arrow_image.specs.Image.{column_in, format_in, part_of, parts_of};
ghost use Rattle.vx_arrow_columns.specs.Asked.{the_picking, the_picks, the_run_picking, the_run_picks};
ghost use Rattle.vx_arrow_columns.specs.Picks.{is_union, offsets_len, own_need, picking_of, picks_of, sizes_len, values_len};
ghost use Rattle.vx_arrow_columns.specs.Planned.{ArePicks, AreSplitJobs, Fits, HasEach, IsJobMeasured, IsListed, IsListedJob, IsPlain, IsPlanned, IsPushed, IsRunFault, IsRunMeasured, IsSettled, IsStart, IsVisited, IsWalking, child_lens, first_len, picking_in, runs_in};
ghost use Rattle.vx_arrow_columns.specs.Reached.{IsVisitFault};
ghost use Rattle.vx_arrow_columns.specs.Sound.{IsFault, IsJobFault};
ghost use Rattle.vx_arrow_columns.specs.Taken.{AreFull, AreWithin};

use crate::faults::Fault;
use crate::measuring::{measure_fixed, measure_node};
use crate::needs::{Inner, Items, is_plain, shows_valid, tested};
use crate::places::{Picks, PlaceList, Places, RunPicks, are_full, are_within};
use crate::unions::is_union;
use std::alloc::Global;
use vx_arrow_image::{Format, Lack, Need, Node, Refusal, format_of};
use vx_runs::{places_of, run_len};

/// The picks of a node: the caller's or a list of places, each `add` further on, all below `end`.
/// None of them where it is kept.
#[derive(Clone, Copy)]
pub(crate) struct Job {
    pub(crate) list: Option<usize>,
    pub(crate) add: u64,
    pub(crate) end: u64,
    pub(crate) kept: bool,
}

/// The picks of each node, and what its rows at them need.
#[derive(Drop)]
pub(crate) struct Plan {
    pub(crate) jobs: Vec<Job>,
    pub(crate) lists: Vec<Places>,
    pub(crate) needs: Vec<Need>,
}

/// The picks of a job.
pub(crate) enum JobPicks<'a> {
    // None: the node is kept.
    Kept,
    // Those of runs.
    Runs(RunPicks<'a>),
    // These.
    Each(Picks<'a>),
}

/// The picks of a job, where these are the caller's.
#[inline(always)]
pub(crate) fn picks_for<'a>(
    places: &'a [u64],
    valid: &'a [u8],
    lists: &'a [Places],
    job: Job,
) -> JobPicks<'a>
    requires listed { IsListed job (length lists.now) }
    ensures { ArePicks (picking_in places.now valid.now lists.now job)
        (runs_in lists.now job.list) result }
{
    if job.kept {
        return JobPicks::Kept;
    }
    let Some(k) = job.list else {
        return JobPicks::Each(Picks {
            places,
            valid,
            add: job.add,
        });
    };
    match &lists[k] {
        Places::Each(list) => JobPicks::Each(Picks {
            places: &list.places,
            valid: &list.valid,
            add: job.add,
        }),
        Places::Runs(runs) => JobPicks::Runs(RunPicks { runs, add: job.add }),
    }
}

// How many bytes of offsets so many rows need.
fn offsets_len(node: &Node, count: u64) -> u64
    requires { count < 2 ^ 60 }
    ensures { result ≡ offsets_len (format_in node.now.format) count }
{
    match format_of(node.format) {
        Some(Format::Text(size)) => size.size() * (count + 1),
        Some(Format::List(size)) => size.size() * (count + 1),
        Some(Format::ListView(size)) => size.size() * count,
        Some(Format::DenseUnion) => 4 * count,
        _ => 0,
    }
}

// How many bytes of sizes they need.
fn sizes_len(node: &Node, count: u64) -> u64
    requires { count < 2 ^ 60 }
    ensures { result ≡ sizes_len (format_in node.now.format) (part_of node.now) count }
{
    match format_of(node.format) {
        Some(Format::ListView(size)) => size.size() * count,
        Some(Format::Union | Format::DenseUnion) => node.children,
        _ => 0,
    }
}

/// What a node's rows at picks need, which have so many bytes of values.
pub(crate) fn need_for(node: &Node, picks: &Picks, values: u64) -> Need
    requires few { length picks.now.places.now < 2 ^ 60 }
    requires values { values ≡ values_len (format_in node.now.format) (part_of node.now)
        (the_picks picks.now) }
    ensures { result ≡ own_need (part_of node.now) (the_picking picks.now) }
{
    let len = picks.places.len() as u64;
    let valid = if shows_valid(node, picks) {
        len.div_ceil(8)
    } else {
        0
    };
    Need {
        len,
        valid,
        offsets: offsets_len(node, len),
        values,
        sizes: sizes_len(node, len),
    }
}

// What a node's rows at the picks of a job need, and which rows its children's are.
#[derive(Drop)]
struct Measured {
    need: Need,
    inner: Inner,
}

// What rows of a fixed width without nulls need at runs of places, all below `end`.
fn measure_runs(node: &Node, picks: &RunPicks, end: u64) -> Result<Measured, Fault>
    requires plain { IsPlain (part_of node.now) }
    requires within { AreWithin (the_run_picks picks.now) end }
    ensures measured { IfOk result (IsRunMeasured (part_of node.now)
        (the_run_picking picks.now)) }
    ensures fault { IfErr result (IsRunFault (part_of node.now) (the_run_picking picks.now) end) }
{
    let _format = tested(node, end)?;
    let Some(len) = run_len(picks.runs) else {
        return Err(Fault::Overflow);
    };
    if len >= 1 << 60 {
        return Err(Fault::Overflow);
    }
    let measure = measure_fixed(node, len)?;
    Ok(Measured {
        need: Need {
            len,
            valid: 0,
            offsets: 0,
            values: measure.values,
            sizes: 0,
        },
        inner: measure.inner,
    })
}

// Tests what a node's rows at the picks of a job touch, before these nodes, and says what they
// need.
fn measure_job<'a>(
    alloc: Global,
    places: &'a [u64],
    valid: &'a [u8],
    lists: &'a [Places],
    node: &Node,
    job: Job,
    behind: &[Node],
) -> Result<Measured, Fault>
    requires listed { IsListed job (length lists.now) }
    requires within { AreWithin (picking_in places.now valid.now lists.now job).picks job.end }
    requires fits { Fits (part_of node.now) lists.now job }
    ensures measured { IfOk result (IsJobMeasured (part_of node.now)
        (picking_in places.now valid.now lists.now job) (parts_of behind.now)) }
    ensures fault { IfErr result (IsJobFault (part_of node.now)
        (picking_in places.now valid.now lists.now job)
        (child_lens (part_of node.now) (parts_of behind.now)) job.end) }
{
    match picks_for(places, valid, lists, job) {
        JobPicks::Kept => Ok(Measured {
            need: Need {
                len: node.len,
                valid: 0,
                offsets: 0,
                values: 0,
                sizes: 0,
            },
            inner: Inner::Kept,
        }),
        JobPicks::Runs(runs) => measure_runs(node, &runs, job.end),
        JobPicks::Each(picks) => {
            let measure = measure_node(alloc, node, &picks, job.end, behind)?;
            Ok(Measured {
                need: need_for(node, &picks, measure.values),
                inner: measure.inner,
            })
        }
    }
}

// The job of a node. Runs become places where they don't serve it. Lists plan runs only where they
// do, so this test stands for a proof about the whole walk.
fn settled(alloc: Global, lists: &mut Vec<Places>, node: &Node, job: Job) -> Result<Job, Fault>
    requires { IsListed job (length lists.old.items) }
    ensures settled { IfOk result
        (IsSettled (part_of node.now) job lists.old.items lists.new.items) }
    ensures fault { IfErr result (IsFault ⊥ ⊥) }
{
    if is_plain(node) {
        return Ok(job);
    }
    let Some(k) = job.list else {
        return Ok(job);
    };
    let Places::Runs(runs) = &lists[k] else {
        return Ok(job);
    };
    let Some(places) = places_of(alloc, runs) else {
        return Err(Fault::NoMemory);
    };
    let last = lists.len();
    lists.push(Places::Each(PlaceList {
        places,
        valid: Vec::new(alloc),
    }))?;
    Ok(Job {
        list: Some(last),
        add: job.add,
        end: job.end,
        kept: job.kept,
    })
}

// Keeps a list of places, and gives the job of a child that has them.
fn listed_job(lists: &mut Vec<Places>, items: Items) -> Result<Job, Fault>
    ensures job { IfOk result (λ job. IsListedJob lists.new.items job items) }
    ensures kept { OnOk result (lists.new.items ≡ lists.old.items ++ items.list ∷ []) }
    ensures fault { IfErr result (IsFault ⊥ ⊥) }
{
    let list = lists.len();
    lists.push(items.list)?;
    Ok(Job {
        list: Some(list),
        add: 0,
        end: items.end,
        kept: false,
    })
}

// Pushes a job for each child, which has picks of its own, the first child's last.
fn push_splits(
    stack: &mut Vec<Job>,
    lists: &mut Vec<Places>,
    mut items: Vec<Items>,
) -> Result<(), Fault>
    ensures pushed { OnOk result (AreSplitJobs items.items lists.old.items lists.new.items
        stack.old.items stack.new.items) }
    ensures fault { IfErr result (IsFault ⊥ ⊥) }
{
    for popped in 0..items.len() {
        if let Some(last) = items.pop() {
            let next = listed_job(lists, last)?;
            stack.push(next)?;
        }
    }
    Ok(())
}

// Pushes the jobs of a node's children, from its own.
fn push_inner(
    stack: &mut Vec<Job>,
    lists: &mut Vec<Places>,
    node: &Node,
    job: Job,
    inner: Inner,
) -> Result<(), Fault>
    requires each { HasEach inner node.now.children }
    requires few { length stack.old.items + node.now.children < 2 ^ 64 }
    ensures pushed { OnOk result (IsPushed node.now job inner lists.old.items lists.new.items
        stack.old.items stack.new.items) }
    ensures fault { IfErr result (IsFault ⊥ ⊥) }
{
    let next = match inner {
        Inner::Leaf => job,
        Inner::Same => Job {
            list: job.list,
            add: job.add.saturating_add(node.offset),
            end: node.offset.saturating_add(node.len),
            kept: false,
        },
        Inner::Kept => Job {
            list: None,
            add: 0,
            end: 0,
            kept: true,
        },
        Inner::Listed(items) => listed_job(lists, items)?,
        Inner::Split(items) => return push_splits(stack, lists, items),
    };
    let len = stack.len() + node.children as usize;
    if stack.resize(len, next).is_err() {
        return Err(Fault::NoMemory);
    }
    Ok(())
}

// A walk over a table: the nodes that were seen, and the jobs of those to come, the next one last.
#[derive(Drop)]
struct Walk {
    jobs: Vec<Job>,
    lists: Vec<Places>,
    needs: Vec<Need>,
    stack: Vec<Job>,
}

impl Walk {
    // Before the first node: the caller's picks, all below `end`.
    fn start(alloc: Global, end: u64) -> Result<Walk, Fault>
        ensures start { IfOk result (IsStart end) }
        ensures fault { IfErr result (IsFault ⊥ ⊥) }
    {
        let mut stack = Vec::new(alloc);
        stack.push(Job {
            list: None,
            add: 0,
            end,
            kept: false,
        })?;
        Ok(Walk {
            jobs: Vec::new(alloc),
            lists: Vec::new(alloc),
            needs: Vec::new(alloc),
            stack,
        })
    }

    // Goes over a node before these.
    fn visit(
        &mut self,
        alloc: Global,
        places: &[u64],
        valid: &[u8],
        node: &Node,
        behind: &[Node],
    ) -> Result<(), Fault>
        requires { IsWalking places.now valid.now self.old }
        ensures visited { OnOk result
            (IsVisited places.now valid.now node.now behind.now self.old self.new) }
        ensures fault { IfErr result
            (IsVisitFault places.now valid.now node.now behind.now self.old) }
    {
        let Some(popped) = self.stack.pop() else {
            return Err(Fault::Lacks(Lack::Tree));
        };
        let left = self.stack.len();
        if left > behind.len() || node.children > (behind.len() - left) as u64 {
            return Err(Fault::Lacks(Lack::Tree));
        }
        let job = settled(alloc, &mut self.lists, node, popped)?;
        let measure = measure_job(alloc, places, valid, &self.lists, node, job, behind)?;
        self.jobs.push(job)?;
        self.needs.push(measure.need)?;
        push_inner(&mut self.stack, &mut self.lists, node, job, measure.inner)
    }
}

/// The picks of each node of a table, where its one column has these.
pub(crate) fn plan_of(
    alloc: Global,
    nodes: &[Node],
    places: &[u64],
    valid: &[u8],
) -> Result<Plan, Refusal>
    ensures planned { IfOk result (IsPlanned (parts_of nodes.now) places.now valid.now) }
    ensures within { OnOk result (AreWithin (picks_of places.now valid.now 0)
        (first_len nodes.now)) }
    ensures full { OnOk result (is_union (parts_of nodes.now) ≡ true
        → AreFull (picks_of places.now valid.now 0)) }
    ensures refused { IfErr result (IsPlanRefusal (parts_of nodes.now)
        (picking_of places.now valid.now 0) (first_len nodes.now)) }
    ensures meant { IfErr result (IsUnmeant (column_in (parts_of nodes.now))) }
{
    if nodes.len() == 0 {
        return Err(Fault::Lacks(Lack::Tree).at(0));
    }
    let end = nodes[0].len;
    let picks = Picks {
        places,
        valid,
        add: 0,
    };
    if !are_within(&picks, end) {
        return Err(Refusal::Beyond);
    }
    if is_union(&nodes[0]) {
        if !are_full(&picks) {
            return Err(Refusal::NullPick);
        }
    }
    let mut walk = match Walk::start(alloc, end) {
        Ok(walk) => walk,
        Err(fault) => return Err(fault.at(0)),
    };
    for i in 0..nodes.len() {
        let behind = &nodes[i + 1..];
        if let Err(fault) = walk.visit(alloc, places, valid, &nodes[i], behind) {
            return Err(fault.at(i));
        }
    }
    let Walk {
        jobs,
        lists,
        needs,
        stack: _,
    } = walk;
    Ok(Plan { jobs, lists, needs })
}
