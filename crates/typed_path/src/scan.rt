//! Reading the bytes of a path component by component.

mod cursor;
mod cut;
mod devices;
mod lanes;
mod names;
mod prefix;
mod separators;
mod span;
mod stems;
mod step;
mod unread;

pub use cursor::{Begin, Body, Cursor};
pub use cut::{
    are_apart, base_end, bodies_behind_shared, cut_at, end_behind, have_other_fronts, order_behind,
    order_of_beginning, order_of_fronts, rests_behind_shared, shared_front, text_behind,
    texts_behind,
};
pub use devices::{is_taken_for_device, may_be_device};
pub use lanes::{
    first_between, first_difference, first_difference_in_lower_case, has_control,
    has_no_nul_or_dot_pair, lowest, marks_at,
};
pub use names::{
    Leading, before_last_separator, begins_no_name, begins_with_long_name, has_long_front,
    has_no_blank_behind, has_only_names, leading_names, leading_short_names,
};
pub use prefix::{
    Found, WindowsPrefix, after_mark, begins_with_two, byte_behind_two, drive, find_prefix,
    keeps_prefix, parted_drive,
};
pub use separators::{
    Look, Separators, cut_at_separator, has_forbidden_or_device, has_valid_names, is_free_of,
    look_at_path,
};
pub use span::Span;
pub use stems::split_name;
pub use step::{Piece, PieceKind, Step, StepKind, is_dots, step_of};
pub use unread::{PlacedPiece, Unread};
