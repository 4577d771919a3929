//! Layout `VarBinView`: a view of its text a row.
ghost use Rattle.std.specs.Prelude.{◌≡◌, ◌<◌, None, [], length, slice_index_or, true};
ghost use Rattle.std.specs.List.{list_all};
ghost use Rattle.vx_bits.specs.Results.{ok_unless};
ghost use Rattle.vx_types.specs.Text.{is_view};
ghost use Rattle.vx_model.specs.Valid.{is_fitting};
ghost use Rattle.vx_model.specs.VarBinView.{view_texts, views_column, views_fault, views_with};
ghost use Rattle.vx_column.specs.Text.{view_parts};
ghost use Rattle.vx_column.specs.Validity.{valid_of};
ghost use Rattle.vx_column.specs.Part.{IsPart};

use crate::array::{Array, Layout};
use crate::cell::{Cell, ReadRow};
use crate::validity::Validity;
use std::marker::Model;
use vx_bits::Buffer;
use vx_shared::Shared;
use vx_types::{BinaryView, ColumnError, TextKind};

/// A column of views of texts, which stand in shared buffers: Vortex's `VarBinViewArray`.
#[cycle(array)]
#[derive(Drop)]
pub struct VarBinViewArray {
    kind: TextKind,
    views: Buffer<BinaryView>,
    buffers: Shared<Vec<Buffer<u8>>>,
    validity: Validity,
}

impl Model for VarBinViewArray {
    ghost use Rattle.vx_model.specs.VarBinView.{ViewParts, coded_views};

    ghost Value = { ViewParts };

    ghost coded = { coded_views };

    ghost use Rattle.std.specs.Prelude.{◌≡◌, ◌+◌, None};
    ghost use Rattle.std.proofs.Common.{arith};
    ghost use Rattle.vx_model.specs.Valid.{valid_size};
    ghost use Rattle.vx_model.specs.VarBinView.{views_fault};
    ghost use Rattle.vx_column.specs.Text.{view_parts};

    ghost view = { λ a. view_parts a.kind a.views a.buffers.items a.validity };

    ghost invariant = { λ a.
        views_fault (view_parts a.kind a.views a.buffers.items a.validity) ≡ None };

    ghost size = { λ p. valid_size p.valid + 1 };

    ghost size_decreases = { λ a h. Prim.grind arith };
}

// Whether each of them is a view of a text.
fn are_views(views: &[BinaryView], buffers: &[Buffer<u8>]) -> bool
    ensures { result ≡ list_all (is_view buffers.now) views.now }
{
    views.iter().all(|view| view.is_view_of(buffers))
}

impl VarBinViewArray {
    /// What its rows are.
    pub fn kind(&self) -> TextKind
        ensures { result ≡ self.now.kind }
    {
        self.kind
    }

    /// A column with one row a view.
    ///
    /// `BadValidity` exactly where the validity can't be that of so many rows. Else `BadViews`
    /// exactly where some view, of a null row too, is one of more than twelve bytes in itself, or
    /// of at most twelve elsewhere, or in a buffer that doesn't exist, or past its buffer's end, or
    /// with other first bytes than it tells.
    pub fn try_new(
        kind: TextKind,
        views: Buffer<BinaryView>,
        buffers: Shared<Vec<Buffer<u8>>>,
        validity: Validity,
    ) -> Result<VarBinViewArray, ColumnError>
        ensures { result
            ≡ ok_unless (views_fault (view_parts kind views buffers.items validity))
            (view_parts kind views buffers.items validity) }
    {
        if !validity.is_fitting(views.len()) {
            return Err(ColumnError::BadValidity);
        }
        if !are_views(views.as_slice(), buffers.as_slice()) {
            return Err(ColumnError::BadViews);
        }
        Ok(VarBinViewArray::of(kind, views, buffers, validity))
    }

    /// A column of sound parts: what a step leaves. It doesn't test what it requires; `try_new`
    /// does.
    pub fn of(
        kind: TextKind,
        views: Buffer<BinaryView>,
        buffers: Shared<Vec<Buffer<u8>>>,
        validity: Validity,
    ) -> VarBinViewArray
        requires { views_fault (view_parts kind views buffers.items validity) ≡ None }
        ensures { result ≡ view_parts kind views buffers.items validity }
    {
        VarBinViewArray {
            kind,
            views,
            buffers,
            validity,
        }
    }

    /// Its views, one a row, null rows too.
    pub fn views(&self) -> &Buffer<BinaryView>
        ensures { IsPart (views_fault self.now) result.now self.now.views }
    {
        &self.views
    }

    /// The buffers that hold the texts of more than twelve bytes.
    pub fn buffers(&self) -> &Shared<Vec<Buffer<u8>>>
        ensures { IsPart (views_fault self.now) result.now.items self.now.buffers }
    {
        &self.buffers
    }

    /// Which rows are valid.
    pub fn validity(&self) -> &Validity
        ensures { IsPart (views_fault self.now) (valid_of result.now) self.now.valid }
    {
        &self.validity
    }

    /// The stored bytes of row `i`, of a null row too.
    #[tactic(auto, using(vx_model::proofs::Texts::view_each))]
    pub fn text_at(&self, i: usize) -> &[u8]
        requires { i < length (view_texts self.now).texts }
        ensures { result.now ≡ slice_index_or (view_texts self.now).texts i [] }
    {
        self.views().as_slice()[i].text(self.buffers().as_slice())
    }

    /// The column's buffers with other views of them and another validity: what a step leaves. It
    /// doesn't test what it requires; `try_new` does.
    pub fn with_views(&self, views: Buffer<BinaryView>, validity: Validity) -> VarBinViewArray
        requires sound { list_all (is_view self.now.buffers) views ≡ true }
        requires fitting { is_fitting (valid_of validity) (length views) ≡ true }
        ensures { result ≡ views_with self.now views (valid_of validity) }
    {
        VarBinViewArray {
            kind: self.kind,
            views,
            buffers: self.buffers.share(),
            validity,
        }
    }

    /// Another handle to the same column.
    pub fn share(&self) -> VarBinViewArray
        ensures { result ≡ self.now }
    {
        self.with_views(self.views.share(), self.validity.share())
    }

    /// The column of this layout.
    #[tactic(auto, using(vx_model::proofs::Texts::view_rows))]
    pub fn into_array(self) -> Array
        ensures { result ≡ views_column self }
    {
        let dtype = self.kind.dtype(self.validity.nullability());
        let len = self.views().len();
        Array::new(dtype, len, Layout::VarBinView(self))
    }
}

// Row `i`.
impl ReadRow for VarBinViewArray {
    ghost column = { views_column };

    #[cycle(cell)]
    #[tactic(auto, using(vx_model::proofs::Texts::view_rows, vx_model::proofs::Layouts::absent_nullable, crate::proofs::Cells::there))]
    fn cell_at(&self, i: usize) -> Cell<'_> {
        // the validity fits the rows
        let _ = self.views();
        if self.validity().is_valid_at(i) {
            Cell::Bytes(self.text_at(i))
        } else {
            Cell::Null
        }
    }
}
