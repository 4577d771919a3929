//! Steps over texts, with the validity of what they leave handed in, and views of texts.
ghost use Rattle.std.specs.Prelude.{◌≡◌, length, true, IfOk, IsOk};
ghost use Rattle.vx_column.specs.Validity.{valid_of};
ghost use Rattle.vx_model.specs.Valid.{is_fitting};
ghost use Rattle.vx_model.specs.VarBin.{varbin_texts};
ghost use Rattle.vx_model.specs.VarBinView.{view_texts};
ghost use Rattle.vx_model.specs.Fits.{FitsTake};

use crate::arguments::{indices_at, mask_at, range_at, validity_at};
use crate::lines::Rows;
use crate::slices::Range;
use rows_common::{check_slice, some_of};
use serde_json::Value;
use std::alloc::Global;
use std::test::Fail;
use vx_column::{
    Array, BinaryView, ConstantArray, DType, Layout, Validity, VarBinArray, VarBinViewArray,
};
use vx_layouts::execute_texts;
use vx_mask::{Mask, Policy};
use vx_take::Picks;
use vx_text::{
    filter_varbin, filter_views, gather_views, slice_varbin, slice_views, take_varbin_picks,
    take_views,
};

/// How many rows it has.
#[tactic(auto, using(vx_model::proofs::Texts::varbin_rows))]
fn text_count(texts: &VarBinArray) -> usize
    ensures { result ≡ length (varbin_texts texts.now).texts }
{
    texts.offsets().values().len().saturating_sub(1)
}

/// How many rows a column of views has.
#[tactic(auto, using(vx_model::proofs::Texts::view_rows))]
fn view_count(texts: &VarBinViewArray) -> usize
    ensures { result ≡ length (view_texts texts.now).texts }
{
    texts.views().len()
}

/// That a validity fits so many rows.
fn check_fitting(validity: &Validity, rows: usize) -> Result<(), Fail>
    ensures { IfOk result (λ _. is_fitting (valid_of validity.now) rows ≡ true) }
{
    if !validity.is_fitting(rows) {
        return Err("a validity of another number of rows".into());
    }
    Ok(())
}

/// The picks that the row states, of so many rows.
fn picks_at(alloc: Global, row: &Value, len: usize) -> Result<Picks, Fail> {
    let indices = indices_at(alloc, row)?;
    if indices.fault(len).is_some() {
        return Err("indices past the rows".into());
    }
    Ok(indices.picks(alloc, len)?)
}

/// That picks are of so many rows, and the validity fits those at them.
fn check_picks(picks: &Picks, validity: &Validity, rows: usize) -> Result<(), Fail>
    ensures { IsOk result → FitsTake rows picks.now (valid_of validity.now) }
{
    if picks.bound() > rows || !validity.is_fitting(picks.len()) {
        return Err("a pick past the rows, or a validity of another number of rows".into());
    }
    Ok(())
}

fn taken_texts(alloc: Global, texts: &VarBinArray, picks: &Picks, validity: &Validity) -> Rows {
    check_picks(picks, validity, text_count(texts))?;
    Ok(take_varbin_picks(alloc, texts, picks, validity.share())?.into_array())
}

fn taken_views(alloc: Global, texts: &VarBinArray, picks: &Picks, validity: &Validity) -> Rows {
    check_picks(picks, validity, text_count(texts))?;
    if texts.last_offset() > 2147483647 {
        return Err("texts past what a view reaches".into());
    }
    Ok(take_views(alloc, texts, picks, validity.share())?.into_array())
}

fn gathered(alloc: Global, texts: &VarBinViewArray, picks: &Picks, validity: &Validity) -> Rows {
    check_picks(picks, validity, view_count(texts))?;
    Ok(gather_views(alloc, texts, picks, validity.share())?.into_array())
}

fn cut_texts(texts: &VarBinArray, (start, end): Range, validity: &Validity) -> Rows {
    check_slice(start, end, text_count(texts))?;
    check_fitting(validity, end - start)?;
    Ok(slice_varbin(texts, start, end, validity.share()).into_array())
}

fn cut_views(texts: &VarBinViewArray, (start, end): Range, validity: &Validity) -> Rows {
    check_slice(start, end, view_count(texts))?;
    check_fitting(validity, end - start)?;
    Ok(slice_views(texts, start, end, validity.share()).into_array())
}

fn kept_texts(alloc: Global, texts: &VarBinArray, mask: &Mask, validity: &Validity) -> Rows {
    let mask = some_of(mask, text_count(texts))?;
    check_fitting(validity, mask.true_count())?;
    Ok(filter_varbin(alloc, texts, mask, &Policy::vortex(), validity.share())?.into_array())
}

fn kept_views(alloc: Global, texts: &VarBinViewArray, mask: &Mask, validity: &Validity) -> Rows {
    let mask = some_of(mask, view_count(texts))?;
    check_fitting(validity, mask.true_count())?;
    Ok(filter_views(alloc, texts, mask, &Policy::vortex(), validity.share())?.into_array())
}

/// The texts that a constant stands for, one after another.
fn copies(alloc: Global, texts: &ConstantArray) -> Rows {
    match texts.scalar().dtype() {
        DType::Utf8(_) | DType::Binary(_) => Ok(execute_texts(alloc, texts)?.into_array()),
        _ => Err("a constant that is no text".into()),
    }
}

/// A take by the function that a row names.
fn text_take(
    alloc: Global,
    column: &Array,
    (picks, validity): (&Picks, &Validity),
    call: &str,
) -> Rows {
    match (call, column.layout()) {
        ("take_varbin_picks", Layout::VarBin(texts)) => taken_texts(alloc, texts, picks, validity),
        ("take_views", Layout::VarBin(texts)) => taken_views(alloc, texts, picks, validity),
        ("gather_views", Layout::VarBinView(texts)) => gathered(alloc, texts, picks, validity),
        _ => Err("no such call".into()),
    }
}

/// A step over texts by the function that a row names.
pub(crate) fn text_step(alloc: Global, row: &Value, column: &Array, call: &str) -> Rows {
    let validity = &validity_at(alloc, row)?;
    match (call, column.layout()) {
        ("slice_varbin", Layout::VarBin(texts)) => cut_texts(texts, range_at(row)?, validity),
        ("slice_views", Layout::VarBinView(texts)) => cut_views(texts, range_at(row)?, validity),
        ("filter_varbin", Layout::VarBin(texts)) => {
            kept_texts(alloc, texts, &mask_at(alloc, row)?, validity)
        }
        ("filter_views", Layout::VarBinView(texts)) => {
            kept_views(alloc, texts, &mask_at(alloc, row)?, validity)
        }
        ("execute_texts", Layout::Constant(texts)) => copies(alloc, texts),
        _ => {
            let picks = picks_at(alloc, row, column.len())?;
            text_take(alloc, column, (&picks, validity), call)
        }
    }
}

/// Appends the view of a text that stands from byte 7 on in buffer 2, where it isn't in the view.
pub(crate) fn push_text_view(lines: &mut String, text: &str) -> Result<(), Fail> {
    if text.len() > 255 {
        return Err("too long a text".into());
    }
    match BinaryView::make_view(text.as_bytes(), 2, 7) {
        BinaryView::Inlined(inline) => {
            writeln!(lines, "= inlined {} {:?}", inline.len, inline.bytes)?;
        }
        BinaryView::Ref {
            len: _,
            prefix,
            buffer,
            offset,
        } => writeln!(lines, "= {prefix:?} at {offset} of buffer {buffer}")?,
    }
    Ok(())
}
