//! What the readers of this family of formats share: lines, sizes, and bits in bytes of six.
pub use crate::body::{Unread, behind_bits, bits_from, low_bits, with_bits};
pub use crate::line::{are_groups, is_set_behind, is_too_long, size};
pub use crate::reader::{next_line, spelt_size};
