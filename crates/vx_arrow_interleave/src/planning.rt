//! Which rows of each node are joined, by their places.
ghost use Rattle.std.specs.Prelude.{◌≡◌, ◌+◌, ◌<◌, ◌≤◌, ◌++◌, ◌^◌, [], ℕ, IfErr, IfOk, OnOk, Some, length, replicate, reverse, true};
ghost use Rattle.vx_arrow_image.specs.Image.{has_child, holds_ids, ids_of, part_of, parts_of};
ghost use Rattle.vx_arrow_interleave.specs.Bytes.{HoldRecords};
ghost use Rattle.vx_arrow_columns.specs.Picks.{offsets_len, sizes_len};
ghost use Rattle.vx_arrow_interleave.specs.Planned.{HaveSameIds, IsCarried, IsMeasured, IsPlanned, IsPlannedJob, IsStart, IsVisited, IsBelow, groups_of, sources_in, valid_len};
ghost use Rattle.vx_arrow_interleave.specs.Refusals.{IsOfPlan};
ghost use Rattle.vx_arrow_interleave.specs.Sources.{AreAlike, ArePlaces, part_at};
ghost use Rattle.vx_arrow_interleave.specs.Spots.{spots};
ghost use Rattle.vx_arrow_interleave.specs.Tested.{AreTagged, Holds};
ghost use Rattle.vx_arrow_interleave.specs.TextViews.{ShowViews, ViewsOf, lists_in};

use crate::faults::{Fault, Refused};
use crate::items::{fixed_items_of, items_of};
use crate::list_views::view_items_of;
use crate::sources::{Group, places_of, shows_valid, tested};
use crate::spans::{Span, rows_of};
use crate::text_views::{viewed_items_of, write_views};
use std::alloc::Global;
use vx_arrow_image::{Format, Lack, Need, Node, Offsets, has_child, holds_ids, ids_lack};
use vx_shared::Shared;

/// The rows of one node.
#[derive(Drop)]
pub(crate) struct Job {
    // As its parent asks for them.
    pub(crate) spans: Shared<Vec<Span>>,
    // By their places in the node's lists.
    pub(crate) rows: Shared<Vec<Span>>,
    // The places of their items, or of the bytes of texts.
    pub(crate) items: Shared<Vec<Span>>,
    // The bytes of views of texts.
    pub(crate) views: Vec<u8>,
}

/// The rows of each node, and what they need.
#[derive(Drop)]
pub(crate) struct Plan {
    pub(crate) jobs: Vec<Job>,
    pub(crate) needs: Vec<Need>,
}

// How many bytes of values the rows of a node are, and the places of their items.
#[derive(Drop)]
struct Measure {
    values: u64,
    items: Vec<Span>,
}

// So many bytes of values, where the nodes have no children.
fn leaf(alloc: Global, sources: &[Node], values: u64) -> Result<Measure, Fault>
    requires { 0 < length sources.now }
    ensures leaf { OnOk result ((part_at (parts_of sources.now) 0).children ≡ 0) }
    ensures values { IfOk result (λ m. m.values ≡ values) }
    ensures items { IfOk result (λ m. spots m.items.items ≡ []) }
{
    if sources[0].children != 0 {
        return Err(Fault::Lacks(Lack::Children));
    }
    Ok(Measure {
        values,
        items: Vec::new(alloc),
    })
}

// Whether the nodes have so many bytes of values for each row.
fn hold_records(width: u64, sources: &[Node], rows: &[Span]) -> bool
    requires alike { AreAlike (parts_of sources.now) }
    requires rows { ArePlaces (parts_of sources.now) (spots rows.now) }
    ensures { result ≡ true → HoldRecords width (parts_of sources.now) (spots rows.now) }
{
    for k in 0..rows.len() {
        let span = rows[k];
        if span.len != 0 {
            let Some(end) = (span.start + span.len).checked_mul(width) else {
                return false;
            };
            if end > sources[span.source as usize].values.len() as u64 {
                return false;
            }
        }
    }
    true
}

// Of values of a fixed width.
fn measure_fixed(alloc: Global, sources: &[Node], rows: &[Span], len: u64) -> Result<Measure, Fault>
    requires alike { AreAlike (parts_of sources.now) }
    requires format { (part_at (parts_of sources.now) 0).format ≡ Some Format.Fixed }
    requires rows { ArePlaces (parts_of sources.now) (spots rows.now) }
    requires len { len ≡ length (spots rows.now) }
    ensures { IfOk result (IsMeasured (Some Format.Fixed) (parts_of sources.now)
        (spots rows.now)) }
{
    let width = sources[0].width;
    if !hold_records(width, sources, rows) {
        return Err(Fault::Lacks(Lack::Values));
    }
    let Some(values) = len.checked_mul(width) else {
        return Err(Fault::Overflow);
    };
    if values >= 1 << 63 {
        return Err(Fault::Overflow);
    }
    leaf(alloc, sources, values)
}

// Of texts.
fn measure_text(
    alloc: Global,
    size: Offsets,
    sources: &[Node],
    rows: &[Span],
) -> Result<Measure, Fault>
    requires alike { AreAlike (parts_of sources.now) }
    requires rows { ArePlaces (parts_of sources.now) (spots rows.now) }
    ensures { IfOk result (IsMeasured (Some (Format.Text size)) (parts_of sources.now)
        (spots rows.now)) }
{
    if sources[0].children != 0 {
        return Err(Fault::Lacks(Lack::Children));
    }
    let items = items_of(alloc, true, size, sources, rows)?;
    let Some(values) = rows_of(&items) else {
        return Err(Fault::Overflow);
    };
    Ok(Measure { values, items })
}

// Of lists.
fn measure_list(
    alloc: Global,
    size: Offsets,
    sources: &[Node],
    rows: &[Span],
) -> Result<Measure, Fault>
    requires alike { AreAlike (parts_of sources.now) }
    requires rows { ArePlaces (parts_of sources.now) (spots rows.now) }
    ensures { IfOk result (IsMeasured (Some (Format.List size)) (parts_of sources.now)
        (spots rows.now)) }
{
    if sources[0].children != 1 {
        return Err(Fault::Lacks(Lack::Children));
    }
    let items = items_of(alloc, false, size, sources, rows)?;
    Ok(Measure { values: 0, items })
}

// Of list views.
fn measure_list_view(
    alloc: Global,
    size: Offsets,
    sources: &[Node],
    rows: &[Span],
) -> Result<Measure, Fault>
    requires alike { AreAlike (parts_of sources.now) }
    requires rows { ArePlaces (parts_of sources.now) (spots rows.now) }
    ensures { IfOk result (IsMeasured (Some (Format.ListView size)) (parts_of sources.now)
        (spots rows.now)) }
{
    if sources[0].children != 1 {
        return Err(Fault::Lacks(Lack::Children));
    }
    let items = view_items_of(alloc, size, sources, rows)?;
    Ok(Measure { values: 0, items })
}

// Of lists of a fixed size.
fn measure_fixed_list(alloc: Global, sources: &[Node], rows: &[Span]) -> Result<Measure, Fault>
    requires alike { AreAlike (parts_of sources.now) }
    ensures { IfOk result (IsMeasured (Some Format.FixedList) (parts_of sources.now)
        (spots rows.now)) }
{
    if sources[0].children != 1 {
        return Err(Fault::Lacks(Lack::Children));
    }
    let items = fixed_items_of(alloc, sources[0].width, rows)?;
    if rows_of(&items).is_none() {
        return Err(Fault::Overflow);
    }
    Ok(Measure { values: 0, items })
}

// Tests that two unions have the same ids.
fn test_ids(first: &Node, node: &Node) -> Result<(), Fault>
    requires first { holds_ids (part_of first.now) ≡ true }
    requires few { node.now.offset + node.now.len < 2 ^ 60 }
    requires children { node.now.children ≡ first.now.children }
    ensures held { OnOk result (holds_ids (part_of node.now) ≡ true) }
    ensures same { OnOk result (ids_of (part_of node.now) ≡ ids_of (part_of first.now)) }
{
    if !holds_ids(node) {
        return Err(Fault::Lacks(ids_lack(node)));
    }
    let count = first.children as usize;
    if node.sizes[..count] != first.sizes[..count] {
        return Err(Fault::Unlike);
    }
    Ok(())
}

// Tests that unions have ids, and the same.
fn test_unions(sources: &[Node]) -> Result<(), Fault>
    requires { AreAlike (parts_of sources.now) }
    ensures { OnOk result (HaveSameIds (parts_of sources.now)) }
{
    if !holds_ids(&sources[0]) {
        return Err(Fault::Lacks(ids_lack(&sources[0])));
    }
    for s in 0..sources.len() {
        test_ids(&sources[0], &sources[s])?;
    }
    Ok(())
}

// Whether each row of a span has the id of a child.
fn are_tagged(node: &Node, span: Span) -> bool
    requires held { holds_ids (part_of node.now) ≡ true }
    requires from { node.now.offset ≤ span.start }
    requires below { span.start + span.len ≤ node.now.offset + node.now.len }
    requires few { node.now.offset + node.now.len < 2 ^ 60 }
    ensures { result ≡ true → (i : ℕ) → span.start ≤ i → i < span.start + span.len
        → has_child (part_of node.now) i ≡ true }
{
    let start = span.start as usize;
    for i in start..start + span.len as usize {
        if !has_child(node, i) {
            return false;
        }
    }
    true
}

// Whether each row has.
fn all_tagged(sources: &[Node], rows: &[Span]) -> bool
    requires alike { AreAlike (parts_of sources.now) }
    requires rows { ArePlaces (parts_of sources.now) (spots rows.now) }
    requires ids { HaveSameIds (parts_of sources.now) }
    ensures { result ≡ true → AreTagged (parts_of sources.now) (spots rows.now) }
{
    for k in 0..rows.len() {
        let span = rows[k];
        if span.len != 0 {
            if !are_tagged(&sources[span.source as usize], span) {
                return false;
            }
        }
    }
    true
}

// Of unions.
fn measure_union(alloc: Global, sources: &[Node], rows: &[Span], len: u64) -> Result<Measure, Fault>
    requires alike { AreAlike (parts_of sources.now) }
    requires rows { ArePlaces (parts_of sources.now) (spots rows.now) }
    requires len { len ≡ length (spots rows.now) }
    ensures { IfOk result (IsMeasured (Some Format.Union) (parts_of sources.now)
        (spots rows.now)) }
{
    test_unions(sources)?;
    if !all_tagged(sources, rows) {
        return Err(Fault::Lacks(Lack::Id));
    }
    Ok(Measure {
        values: len,
        items: Vec::new(alloc),
    })
}

// Of views of texts.
fn measure_views(alloc: Global, sources: &[Node], rows: &[Span], len: u64) -> Result<Measure, Fault>
    requires alike { AreAlike (parts_of sources.now) }
    requires rows { ArePlaces (parts_of sources.now) (spots rows.now) }
    requires len { len ≡ length (spots rows.now) }
    requires few { len < 2 ^ 60 }
    ensures { IfOk result (IsMeasured (Some Format.TextView) (parts_of sources.now)
        (spots rows.now)) }
{
    viewed_items_of(alloc, sources[0].children, sources, rows)?;
    Ok(Measure {
        values: 16 * len,
        items: Vec::new(alloc),
    })
}

// Of rows of this format.
fn measured(
    alloc: Global,
    format: Format,
    sources: &[Node],
    rows: &[Span],
    len: u64,
) -> Result<Measure, Fault>
    requires alike { AreAlike (parts_of sources.now) }
    requires format { (part_at (parts_of sources.now) 0).format ≡ Some format }
    requires rows { ArePlaces (parts_of sources.now) (spots rows.now) }
    requires len { len ≡ length (spots rows.now) }
    requires few { len < 2 ^ 60 }
    ensures { IfOk result (IsMeasured (Some format) (parts_of sources.now) (spots rows.now)) }
{
    match format {
        Format::Nulls => leaf(alloc, sources, 0),
        Format::Bits => leaf(alloc, sources, len.div_ceil(8)),
        Format::Fixed => measure_fixed(alloc, sources, rows, len),
        Format::Text(size) => measure_text(alloc, size, sources, rows),
        Format::Struct => Ok(Measure {
            values: 0,
            items: Vec::new(alloc),
        }),
        Format::List(size) => measure_list(alloc, size, sources, rows),
        Format::FixedList => measure_fixed_list(alloc, sources, rows),
        Format::Union => measure_union(alloc, sources, rows, len),
        Format::TextView => measure_views(alloc, sources, rows, len),
        Format::ListView(size) => measure_list_view(alloc, size, sources, rows),
        Format::DenseUnion => Err(Fault::Lacks(Lack::Format)),
    }
}

// The rows of each child: the same, or its own.
#[derive(Drop)]
enum Below {
    Same(Shared<Vec<Span>>),
    Split(Vec<Shared<Vec<Span>>>),
}

// A job, what it needs, and the rows of its children.
#[derive(Drop)]
struct Planned {
    job: Job,
    need: Need,
    below: Below,
}

// What rows of this format need.
fn need_for(format: Format, sources: &[Node], len: u64, values: u64) -> Need
    requires some { 0 < length sources.now }
    requires format { (part_at (parts_of sources.now) 0).format ≡ Some format }
    requires few { len < 2 ^ 60 }
    requires carried { IsCarried format }
    ensures len { result.len ≡ len }
    ensures valid { result.valid ≡ valid_len (parts_of sources.now) len }
    ensures offsets { result.offsets ≡ offsets_len (Some format) len }
    ensures values { result.values ≡ values }
    ensures sizes { result.sizes
        ≡ sizes_len (Some format) (part_at (parts_of sources.now) 0) len }
{
    let offsets = match format {
        Format::Text(size) | Format::List(size) => size.size() * (len + 1),
        Format::ListView(size) => size.size() * len,
        _ => 0,
    };
    let sizes = match format {
        Format::ListView(size) => size.size() * len,
        Format::Union => sources[0].children,
        _ => 0,
    };
    Need {
        len,
        valid: if shows_valid(sources) {
            len.div_ceil(8)
        } else {
            0
        },
        offsets,
        values,
        sizes,
    }
}

// The bytes of so many views of texts.
fn text_views_of(alloc: Global, sources: &[Node], rows: &[Span], len: u64) -> Result<Vec<u8>, Fault>
    requires alike { AreAlike (parts_of sources.now) }
    requires rows { ArePlaces (parts_of sources.now) (spots rows.now) }
    requires held { ShowViews (part_at (parts_of sources.now) 0).children (parts_of sources.now)
        (spots rows.now) }
    requires len { len ≡ length (spots rows.now) }
    requires few { len < 2 ^ 60 }
    ensures { IfOk result (λ v. ViewsOf (Some Format.TextView) (parts_of sources.now)
        (spots rows.now) v.items) }
{
    let Ok(mut starts) = Vec::from_elem(alloc, 0u64, sources[0].children as usize) else {
        return Err(Fault::NoMemory);
    };
    let Ok(mut views) = Vec::from_elem(alloc, 0u8, 16 * len as usize) else {
        return Err(Fault::NoMemory);
    };
    write_views(sources, rows, &mut starts, &mut views);
    Ok(views)
}

// The bytes of views, of formats that have some.
fn views_of(
    alloc: Global,
    format: Format,
    sources: &[Node],
    rows: &[Span],
    len: u64,
) -> Result<Vec<u8>, Fault>
    requires alike { AreAlike (parts_of sources.now) }
    requires rows { ArePlaces (parts_of sources.now) (spots rows.now) }
    requires held { Holds (Some format) (parts_of sources.now) (spots rows.now) }
    requires len { len ≡ length (spots rows.now) }
    requires few { len < 2 ^ 60 }
    ensures { IfOk result (λ v. ViewsOf (Some format) (parts_of sources.now)
        (spots rows.now) v.items) }
{
    match format {
        Format::TextView => text_views_of(alloc, sources, rows, len),
        _ => Ok(Vec::new(alloc)),
    }
}

// Lists of spans to share.
fn shared_lists(alloc: Global, lists: &Vec<Vec<Span>>) -> Result<Vec<Shared<Vec<Span>>>, Fault>
    ensures { IfOk result (λ v. lists_in v.items ≡ lists_in lists.now.items) }
{
    let mut shared = Vec::new(alloc);
    for j in 0..lists.len() {
        let Ok(own) = Vec::from_slice(alloc, &lists[j]) else {
            return Err(Fault::NoMemory);
        };
        shared.push(Shared::new(alloc, own)?)?;
    }
    Ok(shared)
}

// The rows of the children of nodes of this format.
fn rows_below(alloc: Global, format: Format, sources: &[Node], job: &Job) -> Result<Below, Fault>
    requires alike { AreAlike (parts_of sources.now) }
    requires rows { ArePlaces (parts_of sources.now) (spots job.now.rows.items) }
    requires held { Holds (Some format) (parts_of sources.now) (spots job.now.rows.items) }
    ensures { IfOk result (IsBelow format (parts_of sources.now) job.now) }
{
    match format {
        Format::Struct | Format::Union => Ok(Below::Same(job.rows.share())),
        Format::TextView => {
            let lists = viewed_items_of(alloc, sources[0].children, sources, &job.rows)?;
            Ok(Below::Split(shared_lists(alloc, &lists)?))
        }
        Format::DenseUnion => Err(Fault::Lacks(Lack::Format)),
        _ => Ok(Below::Same(job.items.share())),
    }
}

// Pushes the same spans so many times.
fn push_below(
    stack: &mut Vec<Shared<Vec<Span>>>,
    spans: &Shared<Vec<Span>>,
    count: u64,
) -> Result<(), Fault>
    ensures { OnOk result
        (stack.new.items ≡ stack.old.items ++ replicate count spans.now) }
{
    for _ in 0..count {
        stack.push(spans.share())?;
    }
    Ok(())
}

// Pushes lists of spans, the first one last.
fn push_split(
    stack: &mut Vec<Shared<Vec<Span>>>,
    lists: Vec<Shared<Vec<Span>>>,
) -> Result<(), Fault>
    ensures { OnOk result (stack.new.items ≡ stack.old.items ++ reverse lists.items) }
{
    let mut left = lists;
    for _ in 0..left.len() {
        if let Some(last) = left.pop() {
            stack.push(last)?;
        }
    }
    Ok(())
}

// Plans rows of nodes at one place.
fn job_of(
    alloc: Global,
    sources: &[Node],
    spans: Shared<Vec<Span>>,
    behind: usize,
) -> Result<Planned, Fault>
    ensures { IfOk result (IsPlannedJob (parts_of sources.now) (spots spans.items)) }
{
    let format = tested(sources)?;
    if sources[0].children > behind as u64 {
        return Err(Fault::Lacks(Lack::Tree));
    }
    let rows = places_of(alloc, sources, &spans)?;
    let Some(len) = rows_of(&rows) else {
        return Err(Fault::Overflow);
    };
    let measure = measured(alloc, format, sources, &rows, len)?;
    let need = need_for(format, sources, len, measure.values);
    let views = views_of(alloc, format, sources, &rows, len)?;
    let job = Job {
        spans,
        rows: Shared::new(alloc, rows)?,
        items: Shared::new(alloc, measure.items)?,
        views,
    };
    let below = rows_below(alloc, format, sources, &job)?;
    Ok(Planned { job, need, below })
}

// The rows that are to come, those of the next nodes last.
#[derive(Drop)]
struct Walk {
    jobs: Vec<Job>,
    needs: Vec<Need>,
    stack: Vec<Shared<Vec<Span>>>,
}

impl Walk {
    // Before the first nodes: the caller's rows.
    fn start(alloc: Global, spans: &[Span]) -> Result<Walk, Fault>
        ensures { IfOk result (IsStart (spots spans.now)) }
    {
        let Ok(own) = Vec::from_slice(alloc, spans) else {
            return Err(Fault::NoMemory);
        };
        let mut stack = Vec::new(alloc);
        stack.push(Shared::new(alloc, own)?)?;
        Ok(Walk {
            jobs: Vec::new(alloc),
            needs: Vec::new(alloc),
            stack,
        })
    }

    // Goes over the nodes at one place, of so many sources, before so many places more.
    fn visit(
        &mut self,
        alloc: Global,
        count: usize,
        sources: &[Node],
        behind: usize,
    ) -> Result<(), Fault>
        ensures { OnOk result (IsVisited count (parts_of sources.now) self.old self.new) }
    {
        if sources.len() != count {
            return Err(Fault::Unlike);
        }
        let Some(spans) = self.stack.pop() else {
            return Err(Fault::Lacks(Lack::Tree));
        };
        let Planned { job, need, below } = job_of(alloc, sources, spans, behind)?;
        let left = self.stack.len();
        if left > behind || sources[0].children > (behind - left) as u64 {
            return Err(Fault::Lacks(Lack::Tree));
        }
        self.jobs.push(job)?;
        self.needs.push(need)?;
        match below {
            Below::Same(spans) => push_below(&mut self.stack, &spans, sources[0].children),
            Below::Split(lists) => push_split(&mut self.stack, lists),
        }
    }
}

/// The rows of each node of tables, whose columns have these.
pub(crate) fn plan_of(alloc: Global, groups: &[Group], spans: &[Span]) -> Result<Plan, Refused>
    ensures planned { IfOk result (λ plan. IsPlanned (sources_in groups.now)
        (groups_of groups.now) (spots spans.now) plan) }
    ensures refused { IfErr result IsOfPlan }
{
    if groups.len() == 0 {
        return Err(Fault::Lacks(Lack::Tree).at(0));
    }
    let count = groups[0].nodes.len();
    let mut walk = match Walk::start(alloc, spans) {
        Ok(walk) => walk,
        Err(fault) => return Err(fault.at(0)),
    };
    for i in 0..groups.len() {
        let behind = groups.len() - (i + 1);
        if let Err(fault) = walk.visit(alloc, count, groups[i].nodes, behind) {
            return Err(fault.at(i));
        }
    }
    if !walk.stack.is_empty() {
        return Err(Fault::Lacks(Lack::Tree).at(groups.len()));
    }
    let Walk {
        jobs,
        needs,
        stack: _,
    } = walk;
    Ok(Plan { jobs, needs })
}
