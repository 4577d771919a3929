//! The layouts that leave no step of a kind to their caller, and which.
//!
//! A layout that is marked for a step here answers it by that step over every layout
//! (`taking.rt`, `filtering.rt`, `slicing.rt`). One that declines some has its own answer, in the
//! file of its name.

use vx_plain::VTable;
use vx_plain::vtables::{
    Bool, Decimal, Dict, Extension, FixedSizeList, List, ListView, Map, Null, Primitive, Struct,
    Union, VarBin, VarBinView,
};

/// A layout that answers every take while columns are put together.
pub trait TakeReduceAlways: VTable {}

/// A layout that answers every take while columns are executed.
pub trait TakeExecuteAlways: VTable {}

/// A layout that answers every filter while columns are put together.
pub trait FilterReduceAlways: VTable {}

/// A layout that answers every filter while columns are executed.
pub trait FilterKernelAlways: VTable {}

/// A layout that answers every slice while columns are put together.
pub trait SliceReduceAlways: VTable {}

/// A layout that answers every slice while columns are executed.
pub trait SliceKernelAlways: VTable {}

impl TakeExecuteAlways for Null {}

impl TakeExecuteAlways for Bool {}

impl FilterReduceAlways for Bool {}

impl SliceReduceAlways for Bool {}

impl TakeExecuteAlways for Primitive {}

impl TakeExecuteAlways for Decimal {}

impl TakeExecuteAlways for VarBin {}

impl FilterKernelAlways for VarBin {}

impl SliceReduceAlways for VarBin {}

impl TakeExecuteAlways for VarBinView {}

impl SliceReduceAlways for VarBinView {}

impl TakeExecuteAlways for List {}

impl SliceReduceAlways for List {}

impl TakeReduceAlways for ListView {}

impl TakeExecuteAlways for ListView {}

impl SliceReduceAlways for ListView {}

impl TakeExecuteAlways for FixedSizeList {}

impl SliceReduceAlways for FixedSizeList {}

impl TakeReduceAlways for Map {}

impl TakeExecuteAlways for Map {}

impl FilterReduceAlways for Map {}

impl FilterKernelAlways for Map {}

impl SliceReduceAlways for Map {}

impl SliceKernelAlways for Map {}

impl TakeReduceAlways for Struct {}

impl SliceReduceAlways for Struct {}

impl TakeReduceAlways for Union {}

impl SliceReduceAlways for Union {}

impl TakeReduceAlways for Extension {}

impl TakeExecuteAlways for Extension {}

impl FilterReduceAlways for Extension {}

impl SliceReduceAlways for Extension {}

impl SliceReduceAlways for Dict {}
