//! Rows gathered, by their type.
ghost use Rattle.std.specs.Prelude.{◌≡◌, IfOk, map, true, false};
ghost use Rattle.vx_types.specs.DType.{type_of};
ghost use Rattle.vx_types.specs.TypeTree.{are_carried, extension_type, is_carried, types_of, is_flat};
ghost use Rattle.vx_model.specs.Struct.{struct_of};
ghost use Rattle.vx_interleave.specs.Rows.{AreCellsOf, rows_in, shown_as};
ghost use Rattle.vx_interleave.specs.Structs.{AreFields};
ghost use Rattle.vx_interleave.specs.Unions.{AreVariants, union_of, variant_rows};
ghost use Rattle.vx_model.specs.Plain.{is_lazy_layout, is_unwrapped};

use crate::fixed_lists::{gather_fixed, joined_fixed};
use crate::flat::gather_scalars;
use crate::lists::{gather_lists, joined_lists};
use crate::maps::gather_maps;
use crate::structs::{field_cells, gather_structs};
use crate::unions::{gather_unions, variant_cells};
use std::alloc::Global;
use vx_bits::NoMemory;
use vx_column::{
    Array, Cell, Columns, DType, ExtDType, ExtensionArray, Nullability, StructFields, UnionVariants,
};
use vx_shared::Shared;

// The rows of the storage, under the extension's name.
#[tactic(auto, using(crate::proofs::GatheredRows::extensions))]
fn named(alloc: Global, ext: &Shared<ExtDType>, storage: Array) -> Result<Array, NoMemory>
    requires { storage.dtype.kind ≡ ext.now.storage.kind }
    ensures dtype { IfOk result (λ a. a.dtype
        ≡ extension_type ext.now.name ext.now.storage storage.dtype.nullability) }
    ensures rows { IfOk result (λ a. a.rows ≡ storage.rows) }
    ensures direct { IfOk result (λ a. is_lazy_layout a.layout ≡ false) }
{
    match ExtensionArray::try_new(ext.share(), storage.into_ref(alloc)?) {
        Ok(column) => Ok(column.into_array()),
        Err(_) => unreachable!(),
    }
}

/// The rows as a column of the type, with fillers in place of nulls where it has none.
#[cycle(gather)]
#[tactic(auto, using(crate::proofs::GatheredRows::inside))]
pub(crate) fn gather(alloc: Global, dtype: &DType, cells: &[Cell<'_>]) -> Result<Array, NoMemory>
    requires carried { is_carried (type_of dtype.now) ≡ true }
    requires of_kind { AreCellsOf (type_of dtype.now).kind cells.now }
    ensures dtype { IfOk result (λ a. a.dtype ≡ type_of dtype.now) }
    ensures rows { IfOk result
        (λ a. a.rows ≡ map (shown_as (type_of dtype.now)) (rows_in cells.now)) }
    ensures direct { IfOk result (λ a. is_lazy_layout a.layout ≡ false) }
    ensures unwrapped { is_flat (type_of dtype.now) ≡ true
        → IfOk result (λ a. is_unwrapped a ≡ true) }
{
    match dtype {
        DType::List(element, n) => {
            let lists = joined_lists(alloc, dtype, element.dtype(), cells)?;
            let elements = gather(alloc, element.dtype(), &lists.cells)?;
            gather_lists(alloc, *n, lists.starts, elements, cells)
        }
        DType::FixedSizeList(element, size, n) => {
            let lists = joined_fixed(alloc, dtype, element.dtype(), *size, cells)?;
            let elements = gather(alloc, element.dtype(), &lists)?;
            gather_fixed(alloc, *size, *n, elements, cells)
        }
        DType::Map(fields, _) => {
            let entry = DType::Struct(fields.share(), Nullability::NonNullable);
            let maps = joined_lists(alloc, dtype, &entry, cells)?;
            let columns = gather_fields(alloc, fields, &maps.cells)?;
            let n = Nullability::NonNullable;
            let entries = gather_structs(alloc, fields, n, columns, &maps.cells)?;
            gather_maps(alloc, dtype, maps.starts, entries, cells)
        }
        DType::Struct(fields, n) => {
            let columns = gather_fields(alloc, fields, cells)?;
            gather_structs(alloc, fields, *n, columns, cells)
        }
        DType::Union(variants, n) => {
            let columns = gather_variants(alloc, variants, *n, cells)?;
            gather_unions(alloc, variants, *n, columns, cells)
        }
        DType::Extension(ext, n) => {
            let storage = ext.storage().with_nullability(*n);
            named(alloc, ext, gather(alloc, &storage, cells)?)
        }
        _ if dtype.has_scalars() => gather_scalars(alloc, dtype, cells),
        _ => unreachable!(),
    }
}

// The fields of the rows, each as a column of its type.
#[cycle(gather)]
#[tactic(auto, using(crate::proofs::GatheredRows::each_field))]
fn gather_fields(
    alloc: Global,
    fields: &StructFields,
    cells: &[Cell<'_>],
) -> Result<Columns, NoMemory>
    requires carried { are_carried (types_of fields.now.types) ≡ true }
    requires of_kind { AreCellsOf (struct_of fields.now) cells.now }
    ensures { IfOk result (AreFields 0 fields.now.types (rows_in cells.now)) }
{
    let types = fields.types();
    let mut columns = Vec::with_capacity(alloc, types.len())?;
    for k in 0..types.len() {
        let dtype = &types[k];
        let field = field_cells(alloc, fields, k, dtype, cells)?;
        columns.push(gather(alloc, dtype, &field)?.into_ref(alloc)?)?;
    }
    Columns::new(alloc, columns)
}

// The rows of each variant, as a column of its type.
#[cycle(gather)]
#[tactic(auto, using(crate::proofs::VariantKinds::each_variant))]
fn gather_variants(
    alloc: Global,
    variants: &UnionVariants,
    nullability: Nullability,
    cells: &[Cell<'_>],
) -> Result<Columns, NoMemory>
    requires carried { are_carried (types_of variants.now.types) ≡ true }
    requires of_kind { AreCellsOf (union_of variants.now) cells.now }
    ensures { IfOk result (AreVariants variants.now.ids variants.now.types
        (variant_rows variants.now nullability (rows_in cells.now))) }
{
    let ids = variants.ids();
    let types = variants.types();
    let mut columns = Vec::with_capacity(alloc, types.len())?;
    for k in 0..types.len() {
        let dtype = &types[k];
        let rows = variant_cells(alloc, variants, nullability, ids[k], dtype, cells)?;
        columns.push(gather(alloc, dtype, &rows)?.into_ref(alloc)?)?;
    }
    Columns::new(alloc, columns)
}
