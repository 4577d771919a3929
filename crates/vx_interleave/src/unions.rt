//! Rows of unions, gathered variant by variant.
ghost use Rattle.std.specs.Prelude.{◌≡◌, IfOk, None, OnOk, Some, [], ◌∷◌, map, true, false};
ghost use Rattle.vx_types.specs.DType.{type_of};
ghost use Rattle.vx_types.specs.TypeTree.{primitive_type, union_type};
ghost use Rattle.vx_types.specs.declared.ptype.PType.TheVariants.{U8};
ghost use Rattle.vx_model.specs.Union.{union_column, union_fault};
ghost use Rattle.vx_column.specs.Cell.{row_of, variant_type};
ghost use Rattle.vx_column.specs.UnionParts.{union_parts};
ghost use Rattle.vx_interleave.specs.Lists.{AddsRows, AreShown};
ghost use Rattle.vx_interleave.specs.Rows.{AreCellsOf, IsCellOf, rows_in, shown_as};
ghost use Rattle.vx_interleave.specs.Tags.{id_row, is_tag, row_in, rows_under, tag_in};
ghost use Rattle.vx_interleave.specs.Unions.{AreVariants, union_of, variant_row, variant_rows};
ghost use Rattle.vx_model.specs.Plain.{is_lazy_layout};

use crate::cells::cell_in;
use crate::tags::{gather_places, id_records, is_tag};
use crate::validity::validity_of;
use std::alloc::Global;
use vx_bits::{NoMemory, Records};
use vx_column::{
    Array, ArrayRef, Cell, Columns, DType, Nullability, PType, PrimitiveArray, RecordType,
    UnionArray, UnionVariants, record_column,
};
use vx_shared::Shared;

// The id of a row; of a null none, or the first where the type has no nulls.
fn tag_of(variants: &UnionVariants, nullability: Nullability, cell: Cell<'_>) -> Option<u8>
    requires { IsCellOf (union_of variants.now) cell }
    ensures { result ≡ tag_in (variant_row variants.now nullability (row_of cell.entry)) }
{
    match cell {
        Cell::Tagged(row) => Some(row.id),
        Cell::Null => match nullability {
            Nullability::Nullable => None,
            Nullability::NonNullable => Some(variants.ids()[0]),
        },
        _ => unreachable!(),
    }
}

// The ids of the rows.
fn tags_of(
    alloc: Global,
    variants: &UnionVariants,
    nullability: Nullability,
    cells: &[Cell<'_>],
) -> Result<Vec<Option<u8>>, NoMemory>
    requires { AreCellsOf (union_of variants.now) cells.now }
    ensures { IfOk result (λ tags. tags.items
        ≡ map tag_in (variant_rows variants.now nullability (rows_in cells.now))) }
{
    let mut tags = Vec::with_capacity(alloc, cells.len())?;
    for cell in cells {
        tags.push(tag_of(variants, nullability, *cell))?;
    }
    Ok(tags)
}

// The row of the variant of this id, which is of type `dtype`; a null of a null.
fn row_at<'a>(
    variants: &UnionVariants,
    nullability: Nullability,
    id: u8,
    dtype: &DType,
    cell: Cell<'a>,
) -> Cell<'a>
    requires variant { variant_type (union_of variants.now) id ≡ Some (type_of dtype.now) }
    requires of_kind { IsCellOf (union_of variants.now) cell }
    requires tag { is_tag id
        (tag_in (variant_row variants.now nullability (row_of cell))) ≡ true }
    ensures of_kind { IsCellOf (type_of dtype.now).kind result }
    ensures row { shown_as (type_of dtype.now) (row_of result)
        ≡ row_in (variant_row variants.now nullability (row_of cell.entry)) }
{
    // only the contract speaks of them
    let _ = variants;
    let _ = nullability;
    let _ = id;
    match cell {
        Cell::Tagged(row) => cell_in(dtype, row.column, row.row),
        _ => Cell::Null,
    }
}

// Appends a row to those of the variant of this id, which are of type `dtype`, where it is one.
fn push_variant<'a>(
    chosen: &mut Vec<Cell<'a>>,
    variants: &UnionVariants,
    nullability: Nullability,
    id: u8,
    dtype: &DType,
    cell: Cell<'a>,
) -> Result<(), NoMemory>
    requires variant { variant_type (union_of variants.now) id ≡ Some (type_of dtype.now) }
    requires of_kind { IsCellOf (union_of variants.now) cell }
    ensures { OnOk result (AddsRows (type_of dtype.now)
        (rows_under id (variant_row variants.now nullability (row_of cell.entry) ∷ []))
        chosen.old.items chosen.new.items) }
{
    if !is_tag(tag_of(variants, nullability, cell), id) {
        return Ok(());
    }
    chosen.push(row_at(variants, nullability, id, dtype, cell))?;
    Ok(())
}

/// The rows of the variant of this id, which are of type `dtype`.
pub(crate) fn variant_cells<'a>(
    alloc: Global,
    variants: &UnionVariants,
    nullability: Nullability,
    id: u8,
    dtype: &DType,
    cells: &[Cell<'a>],
) -> Result<Vec<Cell<'a>>, NoMemory>
    requires variant { variant_type (union_of variants.now) id ≡ Some (type_of dtype.now) }
    requires of_kind { AreCellsOf (union_of variants.now) cells.now }
    ensures { IfOk result (λ chosen. AreShown (type_of dtype.now)
        (rows_under id (variant_rows variants.now nullability (rows_in cells.now))) chosen.items) }
{
    let mut chosen = Vec::new(alloc);
    for cell in cells {
        push_variant(&mut chosen, variants, nullability, id, dtype, *cell)?;
    }
    Ok(chosen)
}

// The ids of the rows, as a column.
fn gather_ids(
    alloc: Global,
    variants: &UnionVariants,
    nullability: Nullability,
    tags: &[Option<u8>],
    cells: &[Cell<'_>],
) -> Result<Array, NoMemory>
    requires of_kind { AreCellsOf (union_of variants.now) cells.now }
    requires tags { tags.now
        ≡ map tag_in (variant_rows variants.now nullability (rows_in cells.now)) }
    ensures dtype { IfOk result (λ a. a.dtype ≡ primitive_type U8 nullability) }
    ensures rows { IfOk result (λ a. a.rows ≡ map id_row tags.now) }
{
    // there is a first variant
    let _ = variants.ids();
    let validity = validity_of(alloc, nullability, cells)?;
    let ids = Records::W1(id_records(alloc, tags)?);
    Ok(record_column(RecordType::Primitive(PType::U8), ids, validity))
}

// The dense unions of these ids, places and columns.
fn unions(
    ids: ArrayRef,
    places: PrimitiveArray,
    variants: &Shared<UnionVariants>,
    columns: Columns,
) -> Array
    requires { union_fault (union_parts ids (Some places) variants.now columns) ≡ None }
    ensures { result ≡ union_column (union_parts ids (Some places) variants.now columns) }
{
    match UnionArray::try_new_dense(ids, places, variants.share(), columns) {
        Ok(unions) => unions.into_array(),
        Err(_) => unreachable!(),
    }
}

/// The rows, whose variants are gathered, as a column of dense unions.
pub(crate) fn gather_unions(
    alloc: Global,
    variants: &Shared<UnionVariants>,
    nullability: Nullability,
    columns: Columns,
    cells: &[Cell<'_>],
) -> Result<Array, NoMemory>
    requires of_kind { AreCellsOf (union_of variants.now) cells.now }
    requires columns { AreVariants variants.now.ids variants.now.types
        (variant_rows variants.now nullability (rows_in cells.now)) columns }
    ensures dtype { IfOk result (λ a. a.dtype
        ≡ union_type variants.now.ids variants.now.names variants.now.types nullability) }
    ensures rows { IfOk result
        (λ a. a.rows ≡ variant_rows variants.now nullability (rows_in cells.now)) }
    ensures direct { IfOk result (λ a. is_lazy_layout a.layout ≡ false) }
{
    // there is a first variant
    let _ = variants.ids();
    let tags = tags_of(alloc, variants, nullability, cells)?;
    let ids = gather_ids(alloc, variants, nullability, &tags, cells)?.into_ref(alloc)?;
    let places = gather_places(alloc, &tags)?;
    Ok(unions(ids, places, variants, columns))
}
