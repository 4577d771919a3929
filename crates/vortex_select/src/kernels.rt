//! Filters and takes of slices, of bits and of chunks, with no column around them.
pub use vx_bitfilter::filter_bitbuffer_by_mask;
pub use vx_chunked::{
    filter_chunked, filter_chunked_by_indices, filter_chunked_by_slices, filter_chunked_mask,
};
pub use vx_filter::{
    filter_slice, filter_slice_by_bitmap, filter_slice_by_indices, filter_slice_by_slices,
    filter_slice_in_place, filter_vec,
};
pub use vx_take::{gather, gather_bits, gather_runs, translate_ranks, valid_bits};
